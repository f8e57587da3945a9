//! Balls: a ball goes from frame to frame until a `catch/3` catches it.
ghost use Rattle.std.specs.Prelude.{◌≡◌, ◌<◌, ℕ, suc, [], List, IfOk, IsTrue, OnOk, slice_get, Some};
ghost use Rattle.ml_heap.specs.Changes.{cell_count, variable_count};
ghost use Rattle.ml_machine.specs.BallsCaught.{IsCatch, IsTried};
ghost use Rattle.ml_machine.specs.Positions.{StandsForAny};
ghost use Rattle.ml_machine.specs.Steps.{StepsTo};
ghost use Rattle.ml_search.specs.Program.{Program};
ghost use Rattle.ml_stack.specs.Memories.{CompiledProcedure, Grows};
ghost use Rattle.ml_term.specs.Seen.{seen};
ghost use Rattle.ml_term.specs.Valid.{is_valid};

use crate::machine::Machine;
use crate::position::{Ended, Position, Then};
use ml_heap::Ref;
use ml_stack::{Frame, FrameLink, Memory, Moment, cut_choices, take_back};
use ml_term::Term;
use std::alloc::AllocError;

impl Machine {
    /// A ball looks for its `catch/3` from a link on: one frame of its way. At a `catch/3` memory
    /// and choices go back to its call, whether it catches the ball or not.
    pub(crate) fn throw(&mut self, ball: Term, link: FrameLink) -> Result<Then, AllocError>
        requires { StandsForAny self.old (Position.Throws ball link) }
        ensures { IfOk result (λ then. (p : Program) (ps : List CompiledProcedure) →
            StepsTo p ps self.old (Position.Throws ball link) self.new then) }
    {
        if link == 0 {
            return Ok(self.throw_out(ball)?);
        }
        match self.memory.frame(link - 1) {
            Some(Frame::Body(at)) => Ok(Then::Goes(Position::Throws(ball, at.next))),
            Some(Frame::Cut(_, next)) => Ok(Then::Goes(Position::Throws(ball, next))),
            Some(Frame::Refute(_, next)) => Ok(Then::Goes(Position::Throws(ball, next))),
            Some(
                Frame::Caught {
                    height,
                    moment,
                    catcher,
                    recovery,
                    next,
                },
            ) => Ok(self.throw_at_catch(ball, height, moment, catcher, recovery, next)?),
            None => Err(AllocError),
        }
    }

    /// At a `catch/3`: where its catcher unifies with the ball, its recovery is called, and else
    /// the ball goes on from what stood at its call.
    fn throw_at_catch(
        &mut self,
        ball: Term,
        height: usize,
        moment: Moment,
        catcher: Ref,
        recovery: Ref,
        next: FrameLink,
    ) -> Result<Then, AllocError>
        requires { IsCatch self.old ball height moment catcher recovery next }
        ensures { IfOk result (λ then. (p : Program) (ps : List CompiledProcedure) (i : ℕ) →
            slice_get self.old.memory.frames i
            ≡ Some (Frame.Caught height moment catcher recovery next) →
            StepsTo p ps self.old (Position.Throws ball (suc i)) self.new then) }
    {
        let count = created(&self.memory);
        cut_choices(&self.memory, &mut self.stacks.choices, height);
        self.memory.go_back(&moment);
        count_up_to(&mut self.memory, count)?;
        let caught = catches(&mut self.memory, &ball, catcher)?;
        if caught {
            return Ok(Then::Goes(Position::Calls(recovery, next)));
        }
        Ok(Then::Goes(Position::Throws(ball, next)))
    }

    /// At the end of a continuation: the ball leaves a `findall/3`, or the search is over.
    fn throw_out(&mut self, ball: Term) -> Result<Then, AllocError>
        requires { StandsForAny self.old (Position.Throws ball 0) }
        ensures { IfOk result (λ then. (p : Program) (ps : List CompiledProcedure) →
            StepsTo p ps self.old (Position.Throws ball 0) self.new then) }
    {
        match take_back(&mut self.memory, &mut self.stacks) {
            None => Ok(Then::Over(Ended::Ball(ball))),
            Some(end) => {
                self.answers.undo_to(end.kept);
                Ok(Then::Goes(Position::Throws(ball, end.next)))
            }
        }
    }
}

/// How many variables were created. It takes no memory.
fn created(memory: &Memory) -> u32
    ensures { result ≡ variable_count memory.now.heap }
{
    memory.heap.count()
}

/// Numbers of variables are left out, so that so many were created. Want of memory is the answer
/// too where more were.
fn count_up_to(memory: &mut Memory, count: u32) -> Result<(), AllocError>
    ensures grows { OnOk result (Grows memory.old memory.new []) }
    ensures counted { OnOk result (variable_count memory.new.heap ≡ count) }
{
    let Some(more) = count.checked_sub(memory.heap.count()) else {
        return Err(AllocError);
    };
    memory.heap.leave_out(more)?;
    Ok(())
}

/// Whether a catcher unifies with a new copy of a ball. Where it does, they are unified; else
/// memory is as it was.
fn catches(memory: &mut Memory, ball: &Term, catcher: Ref) -> Result<bool, AllocError>
    requires valid { IsTrue (is_valid (seen ball.now)) }
    requires inside { catcher < cell_count memory.old.heap }
    ensures { IfOk result (λ caught.
        IsTried memory.old memory.new (seen ball.now) catcher caught) }
{
    let before = memory.now();
    let thrown = memory.heap.store_tree(ball)?;
    if memory.heap.unify(thrown, catcher)? {
        return Ok(true);
    }
    memory.go_back(&before);
    Ok(false)
}
