//! The outline of a term that is taken as a body. Its connectives are walked through from the left:
//! what waits for the outline of an operand stands on a stack, so that nothing recurs.
ghost use Rattle.std.specs.Prelude.{◌≡◌, ◌+◌, ◌*◌, ◌<◌, ◌≤◌, ◌++◌, [], ◌∷◌, ℕ, List, IfOk, OnOk, length, vec_len};
ghost use Rattle.ml_heap.specs.Changes.{Changes, cell_count, stands_for};
ghost use Rattle.ml_term.specs.Seen.{seen};
ghost use Rattle.ml_term.specs.Tree.{compound_2, nodes};
ghost use Rattle.ml_called.specs.declared.walk.Step.TheVariants as step;
ghost use Rattle.ml_called.specs.inside.Outlines.{Begins, HasCells, IsWalking, Outline, outline, parts};
ghost use Rattle.ml_called.specs.inside.Outlines.{work_of_frame, work_of_frames, work_of_step};

use crate::outline::outline_goal;
use crate::pairs::joined_at;
use ml_heap::{Heap, Ref};
use ml_term::{ArgsOf, Name, Term};
use std::alloc::{AllocError, Global};

/// What waits for the outline of an operand.
#[derive(Drop)]
pub(crate) enum Frame {
    /// The connective of this name, for its left operand. The right one is in this cell.
    First(Name, Ref),
    /// The connective of this name, for its right operand. The left one's outline is this.
    Second(Name, Term),
}

/// What a walk has come to.
#[derive(Drop)]
pub(crate) enum Step {
    /// To a cell whose term is to be outlined.
    Enter(Ref),
    /// To an outline.
    Outlined(Term),
}

/// The outline of a cell's term, whose variables are numbered from 0, from the left. Their cells go
/// behind the slots. After a refusal some cells may stand there.
pub(crate) fn outline_at(heap: &Heap, at: Ref, slots: &mut Vec<Ref>) -> Result<Term, AllocError>
    requires { at < cell_count heap.now }
    ensures outline { IfOk result (λ term. seen term ≡ outline 0 (stands_for heap.now at)) }
    ensures cells { OnOk result (HasCells heap.now slots.old.items slots.new.items
        (parts (stands_for heap.now at))) }
    ensures begins { Begins slots.old.items slots.new.items }
{
    let alloc = heap.allocator();
    let env = slots.len();
    let mut frames = Vec::new(alloc);
    let mut step = Step::Enter(at);
    loop {
        match step {
            Step::Enter(cell) => step = enter(heap, cell, env, &mut frames, slots)?,
            Step::Outlined(term) => match frames.pop() {
                None => return Ok(term),
                Some(frame) => step = resume(alloc, frame, term, &mut frames)?,
            },
        }
    }
}

// Steps into a cell's term: to the left operand of a connective, while the right one waits, or to
// the outline of any other term.
fn enter(
    heap: &Heap,
    at: Ref,
    env: usize,
    frames: &mut Vec<Frame>,
    slots: &mut Vec<Ref>,
) -> Result<Step, AllocError>
    requires inside { at < cell_count heap.now }
    requires env { env ≤ vec_len slots.old }
    ensures walking { IfOk result (λ next. (old : List ℕ) (want : Outline) → env ≡ length old →
        IsWalking heap.now old want frames.old.items slots.old.items (step.Enter at) →
        IsWalking heap.now old want frames.new.items slots.new.items next) }
    ensures less { IfOk result (λ next.
        work_of_step heap.now next + work_of_frames heap.now frames.new.items
        < 3 * nodes (stands_for heap.now at) + work_of_frames heap.now frames.old.items) }
    ensures begins { Begins slots.old.items slots.new.items }
{
    match joined_at(heap, at) {
        Some(pair) => {
            let name = pair.name.copy_of(heap.allocator())?;
            frames.push(Frame::First(name, pair.second))?;
            Ok(Step::Enter(pair.first))
        }
        None => Ok(Step::Outlined(outline_goal(heap, at, env, slots)?)),
    }
}

// Steps on with the outline of an operand: to the right operand, or to the outline of the
// connective.
fn resume(
    alloc: Global,
    frame: Frame,
    term: Term,
    frames: &mut Vec<Frame>,
) -> Result<Step, AllocError>
    ensures walking { IfOk result (λ next.
        (h : Changes) (old : List ℕ) (want : Outline) (slots : List ℕ) →
        IsWalking h old want (frames.old.items ++ frame ∷ []) slots (step.Outlined term) →
        IsWalking h old want frames.new.items slots next) }
    ensures less { IfOk result (λ next. (h : Changes) →
        work_of_step h next + work_of_frames h frames.new.items
        < work_of_frame h frame + work_of_frames h frames.old.items) }
{
    match frame {
        Frame::First(name, second) => {
            frames.push(Frame::Second(name, term))?;
            Ok(Step::Enter(second))
        }
        Frame::Second(name, first) => Ok(Step::Outlined(pair_of(alloc, name, first, term)?)),
    }
}

// The compound of a name and two arguments.
fn pair_of(alloc: Global, name: Name, first: Term, second: Term) -> Result<Term, AllocError>
    ensures { IfOk result (λ term. seen term ≡ compound_2 name (seen first) (seen second)) }
{
    let mut args = Vec::new(alloc);
    args.push(first)?;
    args.push(second)?;
    Ok(Term::Cmp(name, ArgsOf::new(args)))
}
