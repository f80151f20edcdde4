// The statements that a task begins before its next entry, compared with the batch of that entry as they are begun.
ghost use Rattle.std.specs.Prelude.{◌≡◌, ◌↔◌, ◌++◌, ◌∷◌, ℕ, List, [], IsTrue, OnOk};
ghost use Rattle.rx_rules.specs.Terms.{Term};
ghost use Rattle.rx_rules.specs.Plays.{begun};
ghost use Rattle.rx_control.specs.Stands.{StandsFor};
ghost use Rattle.rx_verify.specs.Along.{GoesAlong};

use rx_base::{Batch, NoMemory, Path, same_path};
use rx_check::Program;
use rx_control::Control;
use std::alloc::Global;

/// How the statements that a task has begun since its last entry go along with the batch of its next: how many they are while they
/// are the first of the batch, and that they are not once one was another. Each is compared as it is begun; none is kept.
#[derive(Drop)]
pub struct Along<'a> {
    paths: &'a Batch,
    count: usize,
    same: bool,
}

impl<'a> Along<'a> {
    /// Before the first of them.
    pub fn open(paths: &'a Batch) -> Along<'a>
        ensures { GoesAlong paths.now result [] }
    {
        Along {
            paths,
            count: 0,
            same: true,
        }
    }

    /// Whether they are the whole batch.
    pub fn is_whole(&self) -> bool
        ensures { (batch so_far : List (List ℕ)) → GoesAlong batch self.now so_far → (IsTrue result ↔ (batch ≡ so_far)) }
    {
        self.same && self.count == self.paths.len()
    }

    // Goes on over the statement that a control's next step begins, where it begins one. It takes memory at most once: for the first
    // that is not the next of the batch.
    pub(crate) fn begin(
        &mut self,
        alloc: Global,
        p: &Program,
        control: &Control,
    ) -> Result<(), NoMemory>
        ensures { OnOk result ((t : Term) (batch so_far : List (List ℕ)) → StandsFor p.now.script control.now t
            → GoesAlong batch self.old so_far → GoesAlong batch self.new (begun t so_far)) }
    {
        if !self.same {
            return Ok(());
        }
        if self.count < self.paths.len() && control.begins(p, self.paths.item(self.count)) {
            self.count += 1;
            return Ok(());
        }
        match control.path(alloc, p)? {
            Some(_) => self.same = false,
            None => {}
        }
        Ok(())
    }

    // Goes on over a statement with this path.
    pub(crate) fn tell(&mut self, path: &Path)
        ensures { (batch so_far : List (List ℕ)) → GoesAlong batch self.old so_far
            → GoesAlong batch self.new (so_far ++ path.now ∷ []) }
    {
        if self.same
            && self.count < self.paths.len()
            && same_path(self.paths.item(self.count), path)
        {
            self.count += 1;
        } else {
            self.same = false;
        }
    }
}
