// The numbers of a path that is too long for its value, or has too great numbers.
ghost use Rattle.std.specs.Prelude.{◌≡◌, ◌++◌, ◌∷◌, [], IfOk, OnOk, OnErr};

use crate::NoMemory;
use std::alloc::Global;
use std::marker::Model;

// Up to fourteen numbers stand in the value itself.
#[derive(Drop)]
enum Row {
    Short { len: u8, few: [u32; 14] },
    All(Vec<u32>),
}

/// A list of numbers, for a block of its own.
#[derive(Drop)]
pub(crate) struct Long {
    row: Row,
}

impl Model for Long {
    ghost use Rattle.std.specs.Prelude.{List, ℕ};
    ghost use Rattle.rx_base.specs.Rows.{in_row, IsShortRow};

    ghost Value = { List ℕ };

    ghost view = { λ a. in_row a.row };

    ghost invariant = { λ a. IsShortRow a.row };
}

impl Long {
    /// The list of these numbers.
    pub(crate) fn from_slice(alloc: Global, numbers: &[u32]) -> Result<Self, NoMemory>
        ensures { IfOk result (λ long. long ≡ numbers.now) }
    {
        let n = numbers.len();
        if n > 14 {
            return Ok(Long {
                row: Row::All(numbers.to_vec(alloc)?),
            });
        }
        let mut few = [0; 14];
        few[..n].copy_from_slice(numbers);
        Ok(Long {
            row: Row::Short { len: n as u8, few },
        })
    }

    /// The numbers, in their order.
    pub(crate) fn numbers(&self) -> &[u32]
        ensures { result.now ≡ self.now }
    {
        match &self.row {
            Row::Short { len, few } => &few[..*len as usize],
            Row::All(all) => all,
        }
    }

    /// Adds a number at the end.
    pub(crate) fn push(&mut self, alloc: Global, item: u32) -> Result<(), NoMemory>
        ensures ok { OnOk result (self.new ≡ self.old ++ item ∷ []) }
        ensures err { OnErr result (self.new ≡ self.old) }
    {
        if let Row::All(all) = &mut self.row {
            all.push(item)?;
            return Ok(());
        }
        self.push_some(alloc, item)
    }

    // Adds a number to those that stand in the value itself.
    fn push_some(&mut self, alloc: Global, item: u32) -> Result<(), NoMemory>
        ensures ok { OnOk result (self.new ≡ self.old ++ item ∷ []) }
        ensures err { OnErr result (self.new ≡ self.old) }
    {
        if let Row::Short { len, few } = &self.row {
            let n = *len;
            let mut more = *few;
            if n < 14 {
                more[n as usize] = item;
                self.row = Row::Short {
                    len: n + 1,
                    few: more,
                };
                return Ok(());
            }
        }
        self.push_more(alloc, item)
    }

    #[cold]
    #[inline(never)]
    fn push_more(&mut self, alloc: Global, item: u32) -> Result<(), NoMemory>
        ensures ok { OnOk result (self.new ≡ self.old ++ item ∷ []) }
        ensures err { OnErr result (self.new ≡ self.old) }
    {
        let mut all = Vec::with_capacity(alloc, 24)?;
        all.extend_from_slice(self.numbers())?;
        all.push(item)?;
        self.row = Row::All(all);
        Ok(())
    }
}
