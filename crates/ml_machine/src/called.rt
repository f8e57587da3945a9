//! Terms that are called: a term becomes code when it is called, and runs then.
ghost use Rattle.std.specs.Prelude.{◌≡◌, ◌<◌, ◌≤◌, ℕ, [], false, IfOk, List, OnOk};
ghost use Rattle.ml_asking.specs.Asking.{Member};
ghost use Rattle.ml_heap.specs.Changes.{cell_count};
ghost use Rattle.ml_machine.specs.Controls.{GivesTo};
ghost use Rattle.ml_machine.specs.Positions.{StandsForAny};
ghost use Rattle.ml_machine.specs.Steps.{StepsTo};
ghost use Rattle.ml_search.specs.Actions.{Continuation, run_body};
ghost use Rattle.ml_search.specs.Bodies.{body_from, call};
ghost use Rattle.ml_search.specs.Errors.{is_too_large};
ghost use Rattle.ml_search.specs.Program.{Program};
ghost use Rattle.ml_stack.specs.Memories.{CompiledProcedure, Grows, tree};
ghost use Rattle.ml_stack.specs.Stands.{Continues, Runs, View};

use crate::machine::Machine;
use crate::position::{Ended, Position, Then};
use ml_called::{compile_called, goal_fault};
use ml_heap::Ref;
use ml_stack::{At, CodeName, FrameLink, Memory};
use std::alloc::AllocError;

impl Machine {
    /// Calls the term of a cell, behind which it goes on at a link: an inference is used, and the
    /// term runs as `call/1` of it.
    pub(crate) fn call_cell(&mut self, cell: Ref, next: FrameLink) -> Result<Then, AllocError>
        requires { StandsForAny self.old (Position.Calls cell next) }
        ensures { IfOk result (λ then. (p : Program) (ps : List CompiledProcedure) →
            StepsTo p ps self.old (Position.Calls cell next) self.new then) }
    {
        if self.left == 0 {
            return Ok(Then::Over(Ended::Exhausted));
        }
        self.left -= 1;
        self.call_term(cell, next)
    }

    /// At `call/1`: its goal runs. A cut in it leaves the choices that were there.
    pub(crate) fn call_term(&mut self, goal: Ref, next: FrameLink) -> Result<Then, AllocError>
        requires { goal < cell_count self.old.memory.heap }
        ensures { IfOk result (λ then. (p : Program) (ps : List CompiledProcedure) →
            GivesTo p ps self.old call goal next self.new then) }
    {
        if let Some(fault) = goal_fault(&self.memory.heap, goal)? {
            return self.raise_fault(fault, goal, next);
        }
        let height = self.stacks.choices.len();
        let at = call_body(&mut self.memory, goal, height, next)?;
        Ok(Then::Goes(Position::Runs(at)))
    }
}

/// The beginning of a cell's term as code, with a height, and a link behind it. The code goes last
/// among the called ones, and the cells that it speaks of behind the slots; nothing is bound. Want
/// of memory is the answer past 2^32 codes. After a refusal slots may have been added.
pub(crate) fn call_body(
    memory: &mut Memory,
    goal: Ref,
    height: usize,
    next: FrameLink,
) -> Result<At, AllocError>
    requires inside { goal < cell_count memory.old.heap }
    requires small { is_too_large (tree memory.old goal) ≡ false }
    ensures grows { OnOk result (Grows memory.old memory.new []) }
    ensures heap { OnOk result (memory.new.heap ≡ memory.old.heap) }
    ensures runs { IfOk result (λ at. (ps : List CompiledProcedure) (w : View) (n : ℕ)
        (gs : Continuation Member) → height ≤ n → Continues ps memory.old w height next gs →
        Runs ps memory.new w n at (run_body (body_from (tree memory.old goal)) height gs)) }
{
    let env = memory.slots.len();
    let code = compile_called(&memory.heap, goal, &mut memory.slots)?;
    let Ok(place) = u32::try_from(memory.codes.len()) else {
        return Err(AllocError);
    };
    memory.codes.push(code)?;
    Ok(At {
        code: CodeName::Called(place),
        place: 0,
        env,
        height,
        next,
    })
}
