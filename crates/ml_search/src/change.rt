//! Changes of the lists, as they are counted and told.
ghost use Rattle.std.specs.Prelude.{◌≡◌, IfOk};

use ml_term::Term;
use std::alloc::{AllocError, Global};

/// What a change does.
#[derive(Clone, Copy, PartialEq, Eq)]
pub enum What {
    /// A tuple is put in.
    Put,
    /// A tuple is taken out.
    Taken,
    /// A clause is put before all others.
    First,
    /// A clause is put behind all others.
    Last,
    /// A clause is taken out.
    Dropped,
}

/// A change: what it does, and the tuple or clause.
#[derive(Drop)]
pub struct Change {
    pub what: What,
    pub term: Term,
}

impl Change {
    /// An equal change.
    pub fn copy_of(&self, alloc: Global) -> Result<Change, AllocError>
        ensures { IfOk result (λ change. change ≡ self.now) }
    {
        Ok(Change {
            what: self.what,
            term: self.term.copy_of(alloc)?,
        })
    }
}
