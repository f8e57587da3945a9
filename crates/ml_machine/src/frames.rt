//! A step at a link.
ghost use Rattle.std.specs.Prelude.{IfOk, List};
ghost use Rattle.ml_search.specs.Program.{Program};
ghost use Rattle.ml_stack.specs.Memories.{CompiledProcedure};
ghost use Rattle.ml_machine.specs.Positions.{StandsForAny};
ghost use Rattle.ml_machine.specs.Steps.{StepsTo};

use crate::machine::Machine;
use crate::position::{Position, Then};
use ml_stack::{Frame, FrameLink, cut_choices};
use std::alloc::AllocError;

impl Machine {
    /// At a link: an answer at the end of a continuation, and else what its frame says.
    pub(crate) fn follow(&mut self, link: FrameLink) -> Result<Then, AllocError>
        requires { StandsForAny self.old (Position.Goes link) }
        ensures { IfOk result (λ then. (p : Program) (ps : List CompiledProcedure) →
            StepsTo p ps self.old (Position.Goes link) self.new then) }
    {
        if link == 0 {
            return self.answer();
        }
        match self.memory.frame(link - 1) {
            Some(Frame::Body(at)) => Ok(Then::Goes(Position::Runs(at))),
            Some(Frame::Cut(height, next)) => {
                cut_choices(&self.memory, &mut self.stacks.choices, height);
                Ok(Then::Goes(Position::Goes(next)))
            }
            Some(Frame::Refute(height, _)) => {
                cut_choices(&self.memory, &mut self.stacks.choices, height);
                Ok(Then::Goes(Position::Fails))
            }
            Some(Frame::Caught { next, .. }) => Ok(Then::Goes(Position::Goes(next))),
            None => Err(AllocError),
        }
    }

    /// At the end of a continuation: the answer of the outermost search, or one of a search inside
    /// a `findall/3`, which keeps it.
    fn answer(&mut self) -> Result<Then, AllocError>
        requires { StandsForAny self.old (Position.Goes 0) }
        ensures { IfOk result (λ then. (p : Program) (ps : List CompiledProcedure) →
            StepsTo p ps self.old (Position.Goes 0) self.new then) }
    {
        if self.stacks.levels.is_empty() {
            return Ok(Then::Answers);
        }
        self.keep_answer()
    }
}
