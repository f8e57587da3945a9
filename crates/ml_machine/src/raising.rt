//! Errors that are raised.
ghost use Rattle.std.specs.Prelude.{◌≡◌, ◌<◌, IfOk, IsTrue, List};
ghost use Rattle.ml_called.specs.Faults.{raised};
ghost use Rattle.ml_heap.specs.Changes.{cell_count, stands_for};
ghost use Rattle.ml_machine.specs.Controls.{RaisesTo};
ghost use Rattle.ml_search.specs.Errors.{kept_small};
ghost use Rattle.ml_search.specs.Program.{Program};
ghost use Rattle.ml_stack.specs.Memories.{CompiledProcedure, tree};
ghost use Rattle.ml_term.specs.Seen.{seen};
ghost use Rattle.ml_term.specs.Tree.{Tree};
ghost use Rattle.ml_term.specs.Valid.{is_valid};

use crate::machine::Machine;
use crate::position::{Position, Then};
use ml_called::ArgumentFault;
use ml_heap::{Heap, Ref};
use ml_raise::{Limit, TermType, error_ball, instantiation_error, resource_error, type_error};
use ml_stack::FrameLink;
use ml_term::Term;
use std::alloc::{AllocError, Global};

impl Machine {
    /// Raises the error for the term of a cell that has a fault, where a link stands behind the
    /// goal.
    pub(crate) fn raise_fault(
        &mut self,
        fault: ArgumentFault,
        cell: Ref,
        next: FrameLink,
    ) -> Result<Then, AllocError>
        requires { cell < cell_count self.old.memory.heap }
        ensures { IfOk result (λ then. (p : Program) (ps : List CompiledProcedure) →
            RaisesTo p ps self.old (raised (tree self.old.memory cell) fault) next self.new then) }
    {
        let error = error_of(self.alloc, &self.memory.heap, fault, cell)?;
        self.raise(error, next)
    }

    /// Raises an error's term, or one that is kept small as it is: its ball looks for a `catch/3`
    /// from a link on.
    pub(crate) fn raise(&mut self, error: Term, next: FrameLink) -> Result<Then, AllocError>
        requires { IsTrue (is_valid (seen error)) }
        ensures { IfOk result (λ then. (p : Program) (ps : List CompiledProcedure) (t : Tree) →
            kept_small t ≡ kept_small (seen error) → RaisesTo p ps self.old t next self.new then) }
    {
        let ball = error_ball(self.alloc, error, self.memory.heap.count())?;
        Ok(Then::Goes(Position::Throws(ball, next)))
    }
}

// The term that is raised for the term of a cell that has a fault, kept small.
fn error_of(alloc: Global, heap: &Heap, fault: ArgumentFault, cell: Ref) -> Result<Term, AllocError>
    requires { cell < cell_count heap.now }
    ensures same { IfOk result (λ term. kept_small (raised (stands_for heap.now cell) fault)
        ≡ kept_small (seen term)) }
    ensures valid { IfOk result (λ term. IsTrue (is_valid (seen term))) }
{
    match fault {
        ArgumentFault::Unbound => Ok(instantiation_error(alloc)?),
        ArgumentFault::TooLarge => Ok(resource_error(alloc, Limit::TermNodes)?),
        ArgumentFault::NotCallable => Ok(type_error(heap, TermType::Callable, cell)?),
        ArgumentFault::NotAList => Ok(type_error(heap, TermType::List, cell)?),
    }
}
