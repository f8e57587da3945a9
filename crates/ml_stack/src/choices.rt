//! Choice points: pushed at the present moment, taken with their memory, and cut.
ghost use Rattle.std.specs.Prelude.{◌≡◌, ◌∷◌, ◌++◌, [], List, OnErr, OnOk, reverse};
ghost use Rattle.ml_asking.specs.Asking.{ChoicePoint};
ghost use Rattle.ml_stack.specs.Choices.{StandFor, StandForSome, TakesTo};
ghost use Rattle.ml_stack.specs.Memories.{CompiledProcedure};
ghost use Rattle.ml_stack.specs.Stands.{IsLeft, lower, View, with_stacks};

use crate::choice::{Choice, Left};
use crate::memory::Memory;
use std::alloc::AllocError;

/// Pushes a choice point at the present moment, with what is left to be tried there. After a
/// refusal there are the same as before.
pub fn push_choice(memory: &Memory, choices: &mut Vec<Choice>, left: Left) -> Result<(), AllocError>
    ensures pushed { OnOk result ((ps : List CompiledProcedure) (w : View) (e : ChoicePoint) →
        StandFor ps memory.now choices.old.items w → IsLeft ps memory.now w left e →
        StandFor ps memory.now choices.new.items
        (with_stacks w (reverse choices.new.items) (e ∷ w.choice_points))) }
    ensures one_more { OnOk result
        ((c : Choice) × (choices.new.items ≡ choices.old.items ++ c ∷ [])) }
    ensures stays { OnErr result (choices.new.items ≡ choices.old.items) }
{
    let moment = memory.now();
    choices.push(Choice { moment, left })?;
    Ok(())
}

/// Takes the latest choice point, with memory as it was at its moment, and gives what is left
/// there; or none, and then all is as before.
pub fn take_choice(memory: &mut Memory, choices: &mut Vec<Choice>) -> Option<Left>
    requires { StandForSome memory.old choices.old.items }
    ensures { (ps : List CompiledProcedure) (w : View) →
        StandFor ps memory.old choices.old.items w →
        TakesTo ps memory.old memory.new choices.new.items w result }
{
    let choice = choices.pop()?;
    memory.go_back(&choice.moment);
    Some(choice.left)
}

/// Only the first choice points stay, as many as the height. Memory stays as it is.
pub fn cut_choices(memory: &Memory, choices: &mut Vec<Choice>, height: usize)
    ensures { (ps : List CompiledProcedure) (w : View) →
        StandFor ps memory.now choices.old.items w →
        StandFor ps memory.now choices.new.items (lower height w) }
{
    choices.truncate(height);
}
