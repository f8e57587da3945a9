//! Control constructs that are called: `call/1`, `once/1`, `\+/1`, `catch/3`, `throw/1` and
//! `findall/3`. Each uses an inference, and checks its argument before anything is pushed.
ghost use Rattle.std.specs.Prelude.{◌≡◌, ◌<◌, ℕ, IfOk, List, slice_index_or, vec_len};
ghost use Rattle.ml_heap.specs.Changes.{cell_count};
ghost use Rattle.ml_machine.specs.Calls.{CallsTo, IsSomeCall};
ghost use Rattle.ml_machine.specs.Controls.{catching, ControlsTo, finding, GivesTo};
ghost use Rattle.ml_machine.specs.Controls.{IsControlledSome};
ghost use Rattle.ml_program.specs.Links.{link_of};
ghost use Rattle.ml_program.specs.declared.link.Link.TheVariants as link;
ghost use Rattle.ml_search.specs.Bodies as bodies;
ghost use Rattle.ml_search.specs.Program.{Program};
ghost use Rattle.ml_stack.specs.Memories.{CompiledProcedure};

use crate::called::call_body;
use crate::machine::Machine;
use crate::position::{Ended, Position, Then};
use ml_called::{ball_fault, goal_fault, list_fault};
use ml_heap::Ref;
use ml_program::ControlCall;
use ml_stack::{FindallCall, Frame, FrameLink, Left, push_choice, put_aside};
use std::alloc::AllocError;

impl Machine {
    /// Calls a control construct with the terms of the cells: an inference is used. Where none is
    /// left the search is over.
    pub(crate) fn call_control(
        &mut self,
        construct: ControlCall,
        next: FrameLink,
    ) -> Result<Then, AllocError>
        requires { (p : Program) × (ps : List CompiledProcedure) × (f : List ℕ) × (n : ℕ)
            × (link_of p ps f n ≡ link.Control construct) × IsSomeCall p ps self.old f n next }
        ensures { IfOk result (λ then. (p : Program) (ps : List CompiledProcedure) (f : List ℕ)
            (n : ℕ) → link_of p ps f n ≡ link.Control construct →
            CallsTo p ps self.old f n next self.new then) }
    {
        if self.left == 0 {
            return Ok(Then::Over(Ended::Exhausted));
        }
        self.left -= 1;
        self.run_construct(construct, next)
    }

    // Runs a control construct with the terms of the cells, once its inference is used.
    fn run_construct(&mut self, construct: ControlCall, next: FrameLink) -> Result<Then, AllocError>
        requires { IsControlledSome self.old construct next }
        ensures { IfOk result (λ then. (p : Program) (ps : List CompiledProcedure) →
            ControlsTo p ps self.old construct next self.new then) }
    {
        let goal = self.argument(0);
        match construct {
            ControlCall::Call => self.call_term(goal, next),
            ControlCall::Once => self.call_once(goal, next),
            ControlCall::NotProvable => self.call_not_provable(goal, next),
            ControlCall::Throw => self.throw_term(goal, next),
            ControlCall::Catch => {
                let catcher = self.argument(1);
                let recovery = self.argument(2);
                self.call_catch(goal, catcher, recovery, next)
            }
            ControlCall::Findall => {
                let template = self.argument(0);
                let wanted = self.argument(1);
                let list = self.argument(2);
                self.call_findall(template, wanted, list, next)
            }
        }
    }

    /// The cell of a call's argument, from 0.
    pub(crate) fn argument(&self, place: usize) -> Ref
        requires { place < vec_len self.now.cells }
        ensures { result ≡ slice_index_or self.now.cells.items place 0 }
    {
        self.cells[place]
    }

    /// At `once/1`: its goal runs, and behind it its choices go.
    pub(crate) fn call_once(&mut self, goal: Ref, next: FrameLink) -> Result<Then, AllocError>
        requires { goal < cell_count self.old.memory.heap }
        ensures { IfOk result (λ then. (p : Program) (ps : List CompiledProcedure) →
            GivesTo p ps self.old bodies.once goal next self.new then) }
    {
        if let Some(fault) = goal_fault(&self.memory.heap, goal)? {
            return self.raise_fault(fault, goal, next);
        }
        let height = self.stacks.choices.len();
        let link = self.memory.push_frame(Frame::Cut(height, next))?;
        let at = call_body(&mut self.memory, goal, height, link)?;
        Ok(Then::Goes(Position::Runs(at)))
    }

    /// At `\+/1`: what stands behind it is a choice, and its goal runs above that. Behind the goal
    /// that choice and those of the goal go, and the branch fails.
    pub(crate) fn call_not_provable(
        &mut self,
        goal: Ref,
        next: FrameLink,
    ) -> Result<Then, AllocError>
        requires { goal < cell_count self.old.memory.heap }
        ensures { IfOk result (λ then. (p : Program) (ps : List CompiledProcedure) →
            GivesTo p ps self.old bodies.not_provable goal next self.new then) }
    {
        if let Some(fault) = goal_fault(&self.memory.heap, goal)? {
            return self.raise_fault(fault, goal, next);
        }
        let height = self.stacks.choices.len();
        push_choice(&self.memory, &mut self.stacks.choices, Left::Goes(next))?;
        let refuted = self.memory.push_frame(Frame::Refute(height, next))?;
        let at = call_body(&mut self.memory, goal, self.stacks.choices.len(), refuted)?;
        Ok(Then::Goes(Position::Runs(at)))
    }

    /// At `catch/3`: its goal runs, and behind it stands how all was at the call.
    pub(crate) fn call_catch(
        &mut self,
        goal: Ref,
        catcher: Ref,
        recovery: Ref,
        next: FrameLink,
    ) -> Result<Then, AllocError>
        requires goal { goal < cell_count self.old.memory.heap }
        requires catcher { catcher < cell_count self.old.memory.heap }
        requires recovery { recovery < cell_count self.old.memory.heap }
        ensures { IfOk result (λ then. (p : Program) (ps : List CompiledProcedure) →
            GivesTo p ps self.old (catching self.old.memory catcher recovery) goal next self.new
            then) }
    {
        if let Some(fault) = goal_fault(&self.memory.heap, goal)? {
            return self.raise_fault(fault, goal, next);
        }
        let height = self.stacks.choices.len();
        let moment = self.memory.now();
        let caught = Frame::Caught {
            height,
            moment,
            catcher,
            recovery,
            next,
        };
        let link = self.memory.push_frame(caught)?;
        let at = call_body(&mut self.memory, goal, height, link)?;
        Ok(Then::Goes(Position::Runs(at)))
    }

    /// At `throw/1`: its ball looks for its `catch/3`.
    pub(crate) fn throw_term(&mut self, ball: Ref, next: FrameLink) -> Result<Then, AllocError>
        requires { ball < cell_count self.old.memory.heap }
        ensures { IfOk result (λ then. (p : Program) (ps : List CompiledProcedure) →
            GivesTo p ps self.old bodies.throw ball next self.new then) }
    {
        if let Some(fault) = ball_fault(&self.memory.heap, ball)? {
            return self.raise_fault(fault, ball, next);
        }
        let Ok(term) = self.memory.heap.tree_at(ball) else {
            return Err(AllocError);
        };
        Ok(Then::Goes(Position::Throws(term, next)))
    }

    /// At `findall/3`: the search that runs is put aside, and its goal runs inside, with nothing to
    /// choose and nothing behind it. The list is checked after the goal.
    pub(crate) fn call_findall(
        &mut self,
        template: Ref,
        goal: Ref,
        list: Ref,
        next: FrameLink,
    ) -> Result<Then, AllocError>
        requires template { template < cell_count self.old.memory.heap }
        requires goal { goal < cell_count self.old.memory.heap }
        requires list { list < cell_count self.old.memory.heap }
        ensures { IfOk result (λ then. (p : Program) (ps : List CompiledProcedure) →
            GivesTo p ps self.old (finding self.old.memory template list) goal next self.new then) }
    {
        if let Some(fault) = goal_fault(&self.memory.heap, goal)? {
            return self.raise_fault(fault, goal, next);
        }
        if let Some(fault) = list_fault(&self.memory.heap, list) {
            return self.raise_fault(fault, list, next);
        }
        let call = FindallCall {
            template,
            list,
            next,
        };
        put_aside(
            self.alloc,
            &self.memory,
            &self.answers,
            &mut self.stacks,
            &call,
        )?;
        let at = call_body(&mut self.memory, goal, 0, 0)?;
        Ok(Then::Goes(Position::Runs(at)))
    }
}
