//! The arguments of goals.
ghost use Rattle.std.specs.Prelude.{◌≡◌, ◌+◌, ℕ, List, [], map, IfOk, OnOk, OnErr};
ghost use mathlib.Core.List.{IsPrefix};
ghost use Rattle.ml_term.specs.Tree.{Tree, substitute};
ghost use Rattle.ml_heap.specs.Changes.{Changes, Grows, variable_count};
ghost use Rattle.ml_heap.specs.Carries.{Carries};
ghost use Rattle.ml_compile.specs.Spells.{Builds};
ghost use Rattle.ml_match.specs.Slots.{HaveSlots, slot_tree};
ghost use Rattle.ml_match.specs.Built.{IsCallAt, HasBuilt};
ghost use Rattle.ml_match.specs.inside.Building.{IsBuilding};

use crate::cells::{join_last, new_integer};
use ml_compile::Instr;
use ml_heap::{Heap, Ref};
use std::alloc::AllocError;

/// Builds the arguments of the goal whose instructions begin at a place, from the slots of an
/// environment, and puts their cells behind others. Gives the place of the goal's call.
/// All older cells and their trees stay, also after a refusal; then only cells may stand behind
/// those that were there.
pub fn build(
    heap: &mut Heap,
    slots: &[Ref],
    env: usize,
    code: &[Instr],
    place: usize,
    cells: &mut Vec<Ref>,
) -> Result<usize, AllocError>
    requires { (ts : List Tree) × ((q : ℕ) × (Builds code.now place q [] ts
        × IsCallAt code.now q × HaveSlots heap.old slots.now env ts)) }
    ensures place { IfOk result (λ found. (ts : List Tree) (q : ℕ) →
        Builds code.now place q [] ts → IsCallAt code.now q →
        HaveSlots heap.old slots.now env ts → found ≡ q) }
    ensures built { OnOk result ((ts : List Tree) (q : ℕ) →
        Builds code.now place q [] ts → IsCallAt code.now q →
        HaveSlots heap.old slots.now env ts →
        HasBuilt heap.new cells.old.items cells.new.items
        (map (substitute (slot_tree heap.old slots.now env)) ts)) }
    ensures front { IsPrefix cells.old.items cells.new.items }
    ensures carried { Carries heap.old heap.new [] }
    ensures counted { variable_count heap.new ≡ variable_count heap.old }
{
    for at in place..code.len() {
        match &code[at] {
            Instr::Call(_) => return Ok(at),
            _ => put(heap, slots, env, code, at, cells)?,
        }
    }
    unreachable!()
}

// One instruction before the call.
fn put(
    heap: &mut Heap,
    slots: &[Ref],
    env: usize,
    code: &[Instr],
    at: usize,
    cells: &mut Vec<Ref>,
) -> Result<(), AllocError>
    requires known { (old : Changes) × ((before : List ℕ) × ((q : ℕ) × ((ts : List Tree) ×
        IsBuilding old slots.now env code.now before q ts at heap.old cells.old.items))) }
    requires early { IsCallAt code.now at → ⊥ }
    ensures built { OnOk result ((old : Changes) (before : List ℕ) (q : ℕ) (ts : List Tree) →
        IsBuilding old slots.now env code.now before q ts at heap.old cells.old.items →
        IsBuilding old slots.now env code.now before q ts (at + 1) heap.new cells.new.items) }
    ensures front { (before : List ℕ) → IsPrefix before cells.old.items →
        OnErr result (IsPrefix before cells.new.items) }
    ensures grown { Grows heap.old heap.new }
    ensures counted { variable_count heap.new ≡ variable_count heap.old }
{
    match &code[at] {
        Instr::PutVar(n) => {
            cells.push(slots[env + *n as usize])?;
            Ok(())
        }
        Instr::PutInt(value) => {
            let cell = new_integer(heap, *value)?;
            cells.push(cell)?;
            Ok(())
        }
        Instr::PutAtom(name) => {
            let cell = heap.new_atom(name)?;
            cells.push(cell)?;
            Ok(())
        }
        Instr::PutCmp(name, arity) => {
            join_last(heap, name, *arity, cells)?;
            Ok(())
        }
        _ => unreachable!(),
    }
}
