//! The terms of a head.
ghost use Rattle.std.specs.Prelude.{◌≡◌, ◌+◌, ◌<◌, ◌≤◌, ◌++◌, ◌∷◌, ℕ, List, length, map};
ghost use Rattle.std.specs.Prelude.{reverse, OnOk};
ghost use Rattle.ml_term.specs.Tree.{Tree, substitute};
ghost use Rattle.ml_heap.specs.Changes.{Changes, Grows, variable_count};
ghost use Rattle.ml_compile.specs.Spells.{Matches};
ghost use Rattle.ml_match.specs.Slots.{slot_tree};
ghost use Rattle.ml_match.specs.Built.{HasBuilt};
ghost use Rattle.ml_match.specs.inside.Matching.{HaveSlotsBelow, IsWriting, MayWrite};
ghost use Rattle.ml_match.specs.inside.Modes.{arity_by, size_by};

use crate::cells::{join_last, new_integer};
use ml_compile::Instr;
use ml_heap::{Heap, Ref};
use std::alloc::AllocError;

// Builds the terms whose instructions stand between two places, the first one last.
pub(crate) fn write_terms(
    heap: &mut Heap,
    slots: &[Ref],
    env: usize,
    code: &[Instr],
    from: usize,
    to: usize,
    cells: &mut Vec<Ref>,
) -> Result<(), AllocError>
    requires { (met after : ℕ) × ((ts : List Tree) × (Matches code.now from to met ts after
        × HaveSlotsBelow heap.old slots.now env after)) }
    ensures built { OnOk result ((met after : ℕ) (ts : List Tree) →
        Matches code.now from to met ts after → HaveSlotsBelow heap.old slots.now env after →
        HasBuilt heap.new cells.old.items cells.new.items
        (map (substitute (slot_tree heap.old slots.now env)) (reverse ts))) }
    ensures grown { Grows heap.old heap.new }
    ensures counted { variable_count heap.new ≡ variable_count heap.old }
{
    let mut at = to;
    while at > from {
        at -= 1;
        write(heap, slots, env, code, at, cells)?;
    }
    Ok(())
}

// One instruction, where what follows it is built.
fn write(
    heap: &mut Heap,
    slots: &[Ref],
    env: usize,
    code: &[Instr],
    at: usize,
    cells: &mut Vec<Ref>,
) -> Result<(), AllocError>
    requires { MayWrite slots.now env code.now at heap.old cells.old.items }
    ensures built { OnOk result ((old : Changes) (before : List ℕ) (to after : ℕ) →
        IsWriting old slots.now env code.now before to after (at + 1) heap.old cells.old.items →
        at < to →
        IsWriting old slots.now env code.now before to after at heap.new cells.new.items) }
    ensures grown { Grows heap.old heap.new }
    ensures counted { variable_count heap.new ≡ variable_count heap.old }
{
    match &code[at] {
        Instr::GetFirst(n) => {
            cells.push(slots[env + *n as usize])?;
            Ok(())
        }
        Instr::GetAgain(n) => {
            cells.push(slots[env + *n as usize])?;
            Ok(())
        }
        Instr::GetInt(value) => {
            let cell = new_integer(heap, *value)?;
            cells.push(cell)?;
            Ok(())
        }
        Instr::GetAtom(name) => {
            let cell = heap.new_atom(name)?;
            cells.push(cell)?;
            Ok(())
        }
        Instr::GetCmp(name, arity, _) => {
            reverse_last(cells, *arity);
            join_last(heap, name, *arity, cells)?;
            Ok(())
        }
        _ => unreachable!(),
    }
}

// The last so many cells in the other order.
fn reverse_last(cells: &mut Vec<Ref>, count: u8)
    requires { count ≤ length cells.old.items }
    ensures { (front last : List ℕ) → cells.old.items ≡ front ++ last → length last ≡ count →
        cells.new.items ≡ front ++ reverse last }
{
    let first = cells.len() - count as usize;
    cells[first..].reverse();
}

// How many instructions a term takes, by its first one.
pub(crate) fn size_of(instr: &Instr) -> usize
    ensures { result ≡ size_by instr.now }
{
    match instr {
        Instr::GetCmp(_, _, size) => *size,
        _ => 1,
    }
}

// How many arguments a term has, by its first instruction.
pub(crate) fn arity_of(instr: &Instr) -> u8
    ensures { result ≡ arity_by instr.now }
{
    match instr {
        Instr::GetCmp(_, arity, _) => *arity,
        _ => 0,
    }
}
