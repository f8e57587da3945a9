//! The variables of a clause that is entered.
ghost use Rattle.std.specs.Prelude.{◌≡◌, ◌+◌, ◌<◌, ℕ, length, OnOk};
ghost use mathlib.Core.List.{IsPrefix};
ghost use Rattle.ml_heap.specs.Changes.{Grows, variable_count};
ghost use Rattle.ml_compile.specs.Spells.{StandsAt};
ghost use Rattle.ml_compile.specs.declared.instr.Instr.TheVariants.{Enter};
ghost use Rattle.ml_match.specs.inside.Matching.{HasNewSlot};

use ml_compile::Instr;
use ml_heap::{Heap, Ref};
use std::alloc::AllocError;

// How many variables a clause has, by the first instruction of its code.
pub(crate) fn width_of(code: &[Instr]) -> u32
    requires { (n : ℕ) × StandsAt code.now 0 (Enter n) }
    ensures { (n : ℕ) → StandsAt code.now 0 (Enter n) → result ≡ n }
{
    match &code[0] {
        Instr::Enter(width) => *width,
        _ => unreachable!(),
    }
}

// Creates so many variables, and puts their cells behind the slots.
pub(crate) fn create_variables(
    heap: &mut Heap,
    slots: &mut Vec<Ref>,
    width: u32,
) -> Result<(), AllocError>
    ensures many { OnOk result (length slots.new.items ≡ length slots.old.items + width) }
    ensures made { OnOk result ((n : ℕ) → n < width → HasNewSlot heap.new slots.new.items
        (length slots.old.items + n) (variable_count heap.old + n)) }
    ensures counted { OnOk result (variable_count heap.new ≡ variable_count heap.old + width) }
    ensures front { IsPrefix slots.old.items slots.new.items }
    ensures grown { Grows heap.old heap.new }
{
    for _ in 0..width {
        let variable = heap.new_var()?;
        slots.push(variable)?;
    }
    Ok(())
}
