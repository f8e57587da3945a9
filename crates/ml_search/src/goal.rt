//! Goals of a script.
ghost use Rattle.std.specs.Prelude.{◌≡◌, IsTrue, IfOk};
ghost use Rattle.ml_search.specs.WellFormed.{is_goal};
ghost use Rattle.ml_term.specs.Seen.{seen};

use crate::names::Names;
use ml_term::Term;
use std::alloc::{AllocError, Global};

/// A goal, with the names of its variables by first place. Its term is callable, and its variables
/// are numbered from 0 by first place. Each number that has a name is one of its variables.
#[derive(Drop)]
pub struct Goal {
    pub term: Term,
    pub names: Names,
    pub ghost well_formed: { IsTrue (is_goal (record { term = seen term; names = names })) },
}

impl Goal {
    /// The goal of a term and its variables' names.
    pub fn new(term: Term, names: Names) -> Goal
        requires { IsTrue (is_goal (record { term = seen term; names = names })) }
        ensures term { result.term ≡ term }
        ensures names { result.names ≡ names }
    {
        Goal { term, names }
    }

    /// An equal goal.
    pub fn copy_of(&self, alloc: Global) -> Result<Goal, AllocError>
        ensures { IfOk result (λ goal. goal ≡ self.now) }
    {
        Ok(Goal {
            term: self.term.copy_of(alloc)?,
            names: self.names.copy_of(alloc)?,
        })
    }
}
