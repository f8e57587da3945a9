//! A search is put aside for the one inside its `findall/3`, and taken back.
ghost use Rattle.std.specs.Prelude.{◌≡◌, List, OnOk, Option, ◌∷◌, []};
ghost use Rattle.ml_asking.specs.Asking.{FindallFrame};
ghost use Rattle.ml_stack.specs.Answers.{Keeps};
ghost use Rattle.ml_stack.specs.Levels.{GivesBack, HandsOver, inner_view, StacksStand};
ghost use Rattle.ml_stack.specs.Levels.{StacksStandForSome};
ghost use Rattle.ml_stack.specs.Memories.{CompiledProcedure, IsTree};
ghost use Rattle.ml_stack.specs.Stands.{IsBranch, View};
ghost use Rattle.ml_term.specs.Tree.{Tree};
ghost use Rattle.std.specs.Prelude.{reverse};

use crate::level::{FindallCall, FindallEnd, Level, Stacks};
use crate::memory::Memory;
use ml_heap::Heap;
use std::alloc::{AllocError, Global};
use std::mem;

/// Puts a search aside at the present moment, for the one inside a `findall/3`: that one begins
/// with nothing to choose, asks for the template, and has found nothing. After a refusal nothing is
/// said of the stacks.
pub fn put_aside(
    alloc: Global,
    memory: &Memory,
    answers: &Heap,
    stacks: &mut Stacks,
    call: &FindallCall,
) -> Result<(), AllocError>
    ensures stands { OnOk result ((ps : List CompiledProcedure) (w : View) (o : FindallFrame) →
        StacksStand ps memory.now stacks.old w → o.choice_points ≡ w.choice_points →
        IsBranch ps memory.now w call.now.next o.branch →
        IsTree memory.now call.now.list o.list →
        StacksStand ps memory.now stacks.new
        (inner_view w call.now.template stacks.new.levels.items o)) }
    ensures keeps { OnOk result
        ((os : List FindallFrame) (o : FindallFrame) (written : List (List Tree)) →
        Keeps answers.now (reverse stacks.old.levels.items) os o.found written →
        Keeps answers.now (reverse stacks.new.levels.items) (o ∷ os) [] written) }
{
    let mut inner = Vec::new(alloc);
    inner.push(call.template)?;
    let choices = mem::replace(&mut stacks.choices, Vec::new(alloc));
    let terms = mem::replace(&mut stacks.terms, inner);
    stacks.levels.push(Level {
        moment: memory.now(),
        choices,
        terms,
        list: call.list,
        next: call.next,
        kept: answers.mark(),
        found: Vec::new(alloc),
    })?;
    Ok(())
}

/// Takes back the search that waits for the present one, whose choice points are dropped, with
/// memory as it was at the call; or none waits, and then no search does.
pub fn take_back(memory: &mut Memory, stacks: &mut Stacks) -> Option<FindallEnd>
    requires { StacksStandForSome memory.old stacks.old }
    ensures stands { (ps : List CompiledProcedure) (w : View) →
        StacksStand ps memory.old stacks.old w →
        GivesBack ps memory.new stacks.new w result }
    ensures level { HandsOver stacks.old stacks.new result }
{
    let level = stacks.levels.pop()?;
    memory.go_back(&level.moment);
    stacks.choices = level.choices;
    stacks.terms = level.terms;
    Some(FindallEnd {
        list: level.list,
        next: level.next,
        kept: level.kept,
        found: level.found,
    })
}
