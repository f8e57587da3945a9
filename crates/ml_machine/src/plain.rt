//! Plain built-ins that are called: they run at once, on the heap.
ghost use Rattle.std.specs.Prelude.{◌≡◌, ℕ, IfOk, List};
ghost use Rattle.ml_machine.specs.Calls.{CallsTo, IsSomeCall};
ghost use Rattle.ml_program.specs.Links.{link_of};
ghost use Rattle.ml_program.specs.declared.link.Link.TheVariants as link;
ghost use Rattle.ml_search.specs.Program.{Program};
ghost use Rattle.ml_stack.specs.Memories.{CompiledProcedure};

use crate::machine::Machine;
use crate::position::{Ended, Position, Then};
use ml_builtin::{Outcome, Plain, run_builtin};
use ml_stack::FrameLink;
use std::alloc::AllocError;

impl Machine {
    /// Calls a plain built-in with the terms of the cells: an inference is used, and the built-in
    /// fails, or binds variables and goes on at a link, or raises.
    pub(crate) fn call_plain(&mut self, plain: Plain, next: FrameLink) -> Result<Then, AllocError>
        requires { (p : Program) × (ps : List CompiledProcedure) × (f : List ℕ) × (n : ℕ)
            × (link_of p ps f n ≡ link.Plain plain) × IsSomeCall p ps self.old f n next }
        ensures { IfOk result (λ then. (p : Program) (ps : List CompiledProcedure) (f : List ℕ)
            (n : ℕ) → link_of p ps f n ≡ link.Plain plain →
            CallsTo p ps self.old f n next self.new then) }
    {
        if self.left == 0 {
            return Ok(Then::Over(Ended::Exhausted));
        }
        self.left -= 1;
        let cells = self.cells.as_slice();
        let outcome = run_builtin(&mut self.memory.heap, plain, cells)?;
        match outcome {
            Outcome::Failed => Ok(Then::Goes(Position::Fails)),
            Outcome::Succeeded => Ok(Then::Goes(Position::Goes(next))),
            Outcome::Raised(error) => self.raise(error, next),
        }
    }
}
