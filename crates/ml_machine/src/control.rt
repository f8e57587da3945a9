//! Control constructs: `true`, `fail`, `!`, `;` and `->`. They use no inference and build no cell.
ghost use Rattle.std.specs.Prelude.{IfOk, List};
ghost use Rattle.ml_compile.specs.declared.instr.Instr.TheVariants as instr;
ghost use Rattle.ml_search.specs.Program.{Program};
ghost use Rattle.ml_stack.specs.Memories.{CompiledProcedure};
ghost use Rattle.ml_machine.specs.Instructions.{EndsBehind, HasInstruction};
ghost use Rattle.ml_machine.specs.Steps.{StepsTo};

use crate::link::{block_behind, link_behind, place_behind};
use crate::machine::Machine;
use crate::position::{Position, Then};
use ml_stack::{At, Frame, Left, cut_choices, push_choice};
use std::alloc::AllocError;

impl Machine {
    /// At the end of a block.
    pub(crate) fn run_proceed(&mut self, at: At) -> Then
        ensures { (p : Program) (ps : List CompiledProcedure) →
            HasInstruction ps self.old.memory at instr.Proceed →
            StepsTo p ps self.old (Position.Runs at) self.new result }
    {
        Then::Goes(Position::Goes(at.next))
    }

    /// At `true`.
    pub(crate) fn run_true(&mut self, at: At) -> Result<Then, AllocError>
        ensures { IfOk result (λ then. (p : Program) (ps : List CompiledProcedure) →
            HasInstruction ps self.old.memory at instr.True →
            StepsTo p ps self.old (Position.Runs at) self.new then) }
    {
        let next = place_behind(at, 1)?;
        Ok(Then::Goes(Position::Runs(next)))
    }

    /// At `fail`.
    pub(crate) fn run_fail(&mut self, at: At) -> Then
        ensures { (p : Program) (ps : List CompiledProcedure) →
            HasInstruction ps self.old.memory at instr.Fail →
            StepsTo p ps self.old (Position.Runs at) self.new result }
    {
        let _ = at;
        Then::Goes(Position::Fails)
    }

    /// At `!`: the choices above the block's height go.
    pub(crate) fn run_cut(&mut self, at: At) -> Result<Then, AllocError>
        ensures { IfOk result (λ then. (p : Program) (ps : List CompiledProcedure) →
            HasInstruction ps self.old.memory at instr.Cut →
            StepsTo p ps self.old (Position.Runs at) self.new then) }
    {
        let next = place_behind(at, 1)?;
        cut_choices(&self.memory, &mut self.stacks.choices, at.height);
        Ok(Then::Goes(Position::Runs(next)))
    }

    /// At `(A ; B)`: A runs, and B is a choice. Both go on behind the disjunction.
    pub(crate) fn run_try(
        &mut self,
        at: At,
        second: usize,
        end: usize,
        ends: bool,
    ) -> Result<Then, AllocError>
        ensures { IfOk result (λ then. (p : Program) (ps : List CompiledProcedure) →
            HasInstruction ps self.old.memory at (instr.Try second end) →
            EndsBehind ps self.old.memory at end ends →
            StepsTo p ps self.old (Position.Runs at) self.new then) }
    {
        let behind = link_behind(&mut self.memory, at, end, ends)?;
        let other = block_behind(at, second, at.height, behind)?;
        let first = block_behind(at, 1, at.height, behind)?;
        let link = self.memory.push_frame(Frame::Body(other))?;
        push_choice(&self.memory, &mut self.stacks.choices, Left::Goes(link))?;
        Ok(Then::Goes(Position::Runs(first)))
    }

    /// At `(C -> T ; E)`: E is a choice, and C runs above it. Behind C that choice and those of C
    /// go, and T runs. A cut in C leaves what is below C's own choices.
    pub(crate) fn run_choose(
        &mut self,
        at: At,
        second: usize,
        third: usize,
        end: usize,
        ends: bool,
    ) -> Result<Then, AllocError>
        ensures { IfOk result (λ then. (p : Program) (ps : List CompiledProcedure) →
            HasInstruction ps self.old.memory at (instr.Choose second third end) →
            EndsBehind ps self.old.memory at end ends →
            StepsTo p ps self.old (Position.Runs at) self.new then) }
    {
        let height = self.stacks.choices.len();
        let behind = link_behind(&mut self.memory, at, end, ends)?;
        let otherwise = block_behind(at, third, at.height, behind)?;
        let outcome = block_behind(at, second, at.height, behind)?;
        let link = self.memory.push_frame(Frame::Body(otherwise))?;
        push_choice(&self.memory, &mut self.stacks.choices, Left::Goes(link))?;
        let taken = self.memory.push_frame(Frame::Body(outcome))?;
        let decided = self.memory.push_frame(Frame::Cut(height, taken))?;
        let condition = block_behind(at, 1, self.stacks.choices.len(), decided)?;
        Ok(Then::Goes(Position::Runs(condition)))
    }
}
