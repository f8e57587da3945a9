//! Programs.
ghost use Rattle.std.specs.Prelude.{◌≡◌, IsTrue, IfOk};
ghost use Rattle.ml_search.specs.ClauseSeen.{clauses_seen};
ghost use Rattle.ml_search.specs.WellFormed.{are_undeclared, is_program};

use crate::clauses::Clauses;
use crate::decls::Decls;
use std::alloc::{AllocError, Global};

/// The declarations in their order, and the clauses of all predicates that aren't declared, in the
/// order of the text.
#[derive(Drop)]
pub struct Program {
    pub decls: Decls,
    pub clauses: Clauses,
    pub ghost well_formed: { IsTrue
        (is_program (record { decls = decls; clauses = clauses_seen clauses })) },
}

impl Program {
    /// The program of declarations and clauses of other predicates.
    pub fn new(decls: Decls, clauses: Clauses) -> Program
        requires { IsTrue (are_undeclared decls (clauses_seen clauses)) }
        ensures decls { result.decls ≡ decls }
        ensures clauses { result.clauses ≡ clauses }
    {
        let _declared_once = decls.len();
        Program { decls, clauses }
    }

    /// An equal program.
    pub fn copy_of(&self, alloc: Global) -> Result<Program, AllocError>
        ensures { IfOk result (λ program. program ≡ self.now) }
    {
        Ok(Program {
            decls: self.decls.copy_of(alloc)?,
            clauses: self.clauses.copy_of(alloc)?,
        })
    }
}
