//! Clauses of a program.
ghost use Rattle.std.specs.Prelude.{◌≡◌, IsTrue, IfOk};
ghost use Rattle.ml_search.specs.WellFormed.{is_clause};
ghost use Rattle.ml_term.specs.Seen.{seen};

use ml_term::Term;
use std::alloc::{AllocError, Global};

/// A clause; a fact has the body `true`. The head is an atom or a compound whose predicate is no
/// control construct and no built-in, the body is callable, and the variables of both are numbered
/// from 0 by first place.
#[derive(Drop)]
pub struct Clause {
    pub head: Term,
    pub body: Term,
    pub ghost well_formed: { IsTrue (is_clause (record { head = seen head; body = seen body })) },
}

impl Clause {
    /// The clause of a head and a body.
    pub fn new(head: Term, body: Term) -> Clause
        requires { IsTrue (is_clause (record { head = seen head; body = seen body })) }
        ensures head { result.head ≡ head }
        ensures body { result.body ≡ body }
    {
        Clause { head, body }
    }

    /// An equal clause.
    pub fn copy_of(&self, alloc: Global) -> Result<Clause, AllocError>
        ensures { IfOk result (λ clause. clause ≡ self.now) }
    {
        Ok(Clause {
            head: self.head.copy_of(alloc)?,
            body: self.body.copy_of(alloc)?,
        })
    }
}
