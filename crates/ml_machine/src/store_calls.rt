//! Built-ins that change lists.
ghost use Rattle.std.specs.Prelude.{◌≡◌, IfOk, List, ℕ};
ghost use Rattle.ml_machine.specs.Calls.{CallsTo, IsSomeCall};
ghost use Rattle.ml_machine.specs.StoreCalls.{IsStoringSome, StoresTo};
ghost use Rattle.ml_program.specs.Links.{link_of};
ghost use Rattle.ml_program.specs.LoadedProgram.{procedures_of, program_of};
ghost use Rattle.ml_program.specs.declared.link.Link.TheVariants as link;
ghost use Rattle.ml_search.specs.Program.{Program};
ghost use Rattle.ml_stack.specs.Memories.{CompiledProcedure};

use crate::machine::Machine;
use crate::position::{Awaits, Ended, Then};
use ml_program::{Loaded, StoreCall};
use ml_search::Op;
use ml_stack::{FrameLink, How};
use ml_store_goals::{StoreGoal, store_goal};
use std::alloc::AllocError;

impl Machine {
    /// Calls a built-in that changes lists with the term of the cell: an inference is used, its
    /// checks are made, and a change or a cursor is asked for, or an error is raised. Where no
    /// inference is left the search is over.
    pub(crate) fn call_store(
        &mut self,
        program: &Loaded,
        call: StoreCall,
        next: FrameLink,
    ) -> Result<Then, AllocError>
        requires { (f : List ℕ) × (n : ℕ) × (link_of (program_of program.now)
            (procedures_of program.now) f n ≡ link.Store call) × IsSomeCall
            (program_of program.now) (procedures_of program.now) self.old f n next }
        ensures { IfOk result (λ then. (f : List ℕ) (n : ℕ) →
            link_of (program_of program.now) (procedures_of program.now) f n ≡ link.Store call →
            CallsTo (program_of program.now) (procedures_of program.now) self.old f n next self.new
            then) }
    {
        if self.left == 0 {
            return Ok(Then::Over(Ended::Exhausted));
        }
        self.left -= 1;
        let argument = self.argument(0);
        let goal = store_goal(program, call, &mut self.memory.heap, argument)?;
        self.run_store_goal(goal, next)
    }

    // Does what a goal comes to, once its inference is used.
    fn run_store_goal(&mut self, goal: StoreGoal, next: FrameLink) -> Result<Then, AllocError>
        requires { IsStoringSome self.old goal next }
        ensures { IfOk result (λ then. (p : Program) (ps : List CompiledProcedure) →
            StoresTo p ps self.old goal next self.new then) }
    {
        match goal {
            StoreGoal::Raise(error) => self.raise(error, next),
            StoreGoal::Change { op, must_change } => {
                Ok(Then::Asks(op, Awaits::Change { must_change, next }))
            }
            StoreGoal::Retract {
                list,
                pattern,
                head,
                body,
            } => Ok(Then::Asks(
                Op::Open(list, pattern),
                Awaits::Cursor {
                    how: How::Retract,
                    goal: head,
                    wanted: body,
                    next,
                },
            )),
        }
    }
}
