// The cells of a table of counts.
ghost use Rattle.std.specs.Prelude.{◌≡◌, ◌<◌, [], length, slice_index_or, slice_set, replicate, IfOk};

use rx_base::NoMemory;
use std::alloc::Global;
use std::marker::Model;

/// Counts by their number.
#[derive(Drop)]
pub struct Cells {
    cells: Vec<u32>,
}

impl Model for Cells {
    ghost use Rattle.std.specs.Prelude.{List, ℕ};

    ghost Value = { List ℕ };

    ghost view = { λ a. a.cells.items };
}

impl Cells {
    /// No cells. It takes no memory.
    pub fn none(alloc: Global) -> Self
        ensures { result ≡ [] }
    {
        Cells {
            cells: Vec::new(alloc),
        }
    }

    /// So many cells, with 0 in each.
    pub fn open(alloc: Global, many: usize) -> Result<Self, NoMemory>
        ensures { IfOk result (λ zeros. zeros ≡ replicate many 0) }
    {
        Ok(Cells {
            cells: vec![in alloc; 0; many]?,
        })
    }

    /// How many there are.
    pub fn len(&self) -> usize
        ensures { result ≡ length self.now }
    {
        self.cells.len()
    }

    /// What is in a cell; 0 past the last.
    pub fn at(&self, cell: usize) -> u32
        ensures { result ≡ slice_index_or self.now cell 0 }
    {
        match self.cells.get(cell) {
            Some(count) => *count,
            None => 0,
        }
    }

    /// Puts a count into a cell.
    pub fn put(&mut self, cell: usize, count: u32)
        requires { cell < length self.old }
        ensures { self.new ≡ slice_set self.old cell count }
    {
        self.cells[cell] = count;
    }
}
