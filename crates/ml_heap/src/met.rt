//! The variables that were met in a term that is being stored.
ghost use Rattle.std.specs.Prelude.{◌≡◌, ◌==◌, ℕ, Some, None, if◌then◌else◌, OnOk};

use std::alloc::{AllocError, Global};
use std::collections::BTreeMap;

/// The cells of variables, by the variables' numbers.
#[derive(Drop)]
pub struct MetVariables {
    cells: BTreeMap<u32, usize, Global>,
}

impl MetVariables {
    ghost use Rattle.ml_heap.specs.Storing.{cell_of};

    /// No variables.
    pub fn new(alloc: Global) -> MetVariables
        ensures { (n : ℕ) → cell_of result n ≡ None }
    {
        MetVariables {
            cells: BTreeMap::new(alloc),
        }
    }

    /// The cell of a variable.
    pub fn find(&self, n: u32) -> Option<usize>
        ensures { result ≡ cell_of self.now n }
    {
        self.cells.get(&n).copied()
    }

    /// Adds a variable with its cell.
    pub fn add(&mut self, n: u32, at: usize) -> Result<(), AllocError>
        ensures { OnOk result ((k : ℕ) →
            cell_of self.new k ≡ (if n == k then Some at else cell_of self.old k)) }
    {
        self.cells.insert(n, at)?;
        Ok(())
    }
}
