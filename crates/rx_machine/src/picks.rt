// Where the picks of a schedule come from.
ghost use Rattle.std.specs.Prelude.{◌≡◌, ℕ, suc, List, drop, slice_index_or, IfOk};

use rx_base::NoMemory;
use std::alloc::Global;

/// The picks of a run, one number a turn that uses one.
pub trait Picks {
    /// The number that the j-th call from now on gives.
    ghost number: { Self → ℕ → ℕ };

    /// The next pick.
    fn next(&mut self) -> u32
        ensures now { result ≡ number self.old 0 }
        ensures later { (j : ℕ) → number self.new j ≡ number self.old (suc j) };
}

/// The picks of a list, and then 0.
#[derive(Drop)]
pub struct ListPicks {
    list: Vec<u32>,
    used: usize,
}

impl ListPicks {
    /// Before its first pick.
    pub fn open(alloc: Global, list: &[u32]) -> Result<ListPicks, NoMemory>
        ensures { IfOk result (λ picks. (j : ℕ) → ⟦<ListPicks as Picks>⟧.number picks j ≡ slice_index_or list.now j 0) }
    {
        Ok(ListPicks {
            list: list.to_vec(alloc)?,
            used: 0,
        })
    }
}

impl Picks for ListPicks {
    ghost number = { λ s j. slice_index_or (drop s.used s.list.items) j 0 };

    fn next(&mut self) -> u32 {
        match self.list.get(self.used) {
            Some(pick) => {
                self.used += 1;
                *pick
            }
            None => 0,
        }
    }
}
