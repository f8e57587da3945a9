//! A head matched by its instructions, one term after another. Cells wait for the terms that are
//! left, the last cell for the first term. A variable that the head meets first takes the cell
//! itself into its slot: nothing is bound or walked for it. In read mode the arguments of a
//! compound wait next; in write mode the term is built, and unified with what the cell stands for.
ghost use Rattle.std.specs.Prelude.{◌≡◌, ◌≤◌, ◌<◌, ◌++◌, ◌∷◌, [], ℕ, List, length, map, reverse};
ghost use Rattle.std.specs.Prelude.{IfOk, IfSome, OnOk};
ghost use mathlib.Core.List.{IsPrefix};
ghost use Rattle.ml_heap.specs.Changes.{AreCells, KeepsMarks, cell_count, stands_for};
ghost use Rattle.ml_heap.specs.Changes.{arguments_of, variable_count};
ghost use Rattle.ml_match.specs.inside.Running.{EndsAt, GoesOn, MayRun};

use crate::head::{arity_of, size_of, write_terms};
use crate::mode::{Mode, mode_of};
use ml_compile::Instr;
use ml_heap::{Heap, Ref};
use std::alloc::AllocError;

// Matches all terms of a head, from the first place on. Gives the place behind them, or none where
// the head doesn't unify.
pub(crate) fn match_head(
    heap: &mut Heap,
    slots: &mut [Ref],
    env: usize,
    code: &[Instr],
    todo: &mut Vec<Ref>,
) -> Result<Option<usize>, AllocError>
    requires { MayRun code.now env 1 heap.old slots.old todo.old.items }
    ensures goes_on { IfOk result (λ found. GoesOn code.now env 1
        heap.old slots.old todo.old.items heap.new slots.new [] found) }
    ensures front { (before : List ℕ) → length before ≤ env → IsPrefix before slots.old →
        IsPrefix before slots.new }
    ensures many { length slots.new ≡ length slots.old }
    ensures counted { variable_count heap.new ≡ variable_count heap.old }
    ensures marks { KeepsMarks heap.old heap.new }
{
    let mut at = 1;
    while let Some(cell) = todo.pop() {
        match match_term(heap, slots, env, code, at, cell, todo)? {
            Some(next) => at = next,
            None => return Ok(None),
        }
    }
    Ok(Some(at))
}

// Matches the term at a place with what a cell stands for. Gives the place from which on the rest
// is matched, or none where the head doesn't unify.
fn match_term(
    heap: &mut Heap,
    slots: &mut [Ref],
    env: usize,
    code: &[Instr],
    at: usize,
    cell: Ref,
    todo: &mut Vec<Ref>,
) -> Result<Option<usize>, AllocError>
    requires { MayRun code.now env at heap.old slots.old (todo.old.items ++ cell ∷ []) }
    ensures goes_on { IfOk result (λ found. GoesOn code.now env at
        heap.old slots.old (todo.old.items ++ cell ∷ [])
        heap.new slots.new todo.new.items found) }
    ensures later { IfOk result (λ found. IfSome found (λ next. at < next)) }
    ensures front { (before : List ℕ) → length before ≤ env → IsPrefix before slots.old →
        IsPrefix before slots.new }
    ensures many { length slots.new ≡ length slots.old }
    ensures counted { variable_count heap.new ≡ variable_count heap.old }
    ensures marks { KeepsMarks heap.old heap.new }
{
    match &code[at] {
        Instr::GetFirst(n) => {
            slots[env + *n as usize] = cell;
            Ok(Some(at + 1))
        }
        _ => match_other(heap, slots, env, code, at, cell, todo),
    }
}

// Matches a term that sets no slot.
fn match_other(
    heap: &mut Heap,
    slots: &[Ref],
    env: usize,
    code: &[Instr],
    at: usize,
    cell: Ref,
    todo: &mut Vec<Ref>,
) -> Result<Option<usize>, AllocError>
    requires { MayRun code.now env at heap.old slots.now (todo.old.items ++ cell ∷ []) }
    ensures goes_on { IfOk result (λ found. GoesOn code.now env at
        heap.old slots.now (todo.old.items ++ cell ∷ [])
        heap.new slots.now todo.new.items found) }
    ensures later { IfOk result (λ found. IfSome found (λ next. at < next)) }
    ensures counted { variable_count heap.new ≡ variable_count heap.old }
    ensures marks { KeepsMarks heap.old heap.new }
{
    let instr = &code[at];
    match mode_of(heap, cell, instr) {
        Mode::Clash => Ok(None),
        Mode::Read => {
            push_arguments(heap, cell, arity_of(instr), todo)?;
            Ok(Some(at + 1))
        }
        Mode::Write => unify_term(heap, slots, env, code, at, at + size_of(instr), cell, todo),
    }
}

// Builds the term at a place, which ends before another place, and unifies it with what a cell
// stands for.
fn unify_term(
    heap: &mut Heap,
    slots: &[Ref],
    env: usize,
    code: &[Instr],
    at: usize,
    end: usize,
    cell: Ref,
    todo: &mut Vec<Ref>,
) -> Result<Option<usize>, AllocError>
    requires running { MayRun code.now env at heap.old slots.now (todo.old.items ++ cell ∷ []) }
    requires ends { EndsAt code.now at end }
    ensures goes_on { IfOk result (λ found. GoesOn code.now env at
        heap.old slots.now (todo.old.items ++ cell ∷ [])
        heap.new slots.now todo.new.items found) }
    ensures later { IfOk result (λ found. IfSome found (λ next. at < next)) }
    ensures counted { variable_count heap.new ≡ variable_count heap.old }
    ensures marks { KeepsMarks heap.old heap.new }
{
    write_terms(heap, slots, env, code, at, end, todo)?;
    let Some(built) = todo.pop() else {
        unreachable!()
    };
    if heap.unify(cell, built)? {
        Ok(Some(end))
    } else {
        Ok(None)
    }
}

// Puts the arguments of what a cell stands for last, the first after all others.
fn push_arguments(heap: &Heap, at: Ref, count: u8, todo: &mut Vec<Ref>) -> Result<(), AllocError>
    requires inside { at < cell_count heap.now }
    requires many { count ≡ length (arguments_of (stands_for heap.now at)) }
    ensures { OnOk result ((args : List ℕ) × ((todo.new.items ≡ todo.old.items ++ reverse args)
        × AreCells (cell_count heap.now) args
        × (map (stands_for heap.now) args ≡ arguments_of (stands_for heap.now at)))) }
{
    let mut i = count;
    while i > 0 {
        i -= 1;
        todo.push(heap.arg(at, i))?;
    }
    Ok(())
}

// Puts some cells last in the other order.
pub(crate) fn push_turned(cells: &[Ref], todo: &mut Vec<Ref>) -> Result<(), AllocError>
    ensures { OnOk result (todo.new.items ≡ todo.old.items ++ reverse cells.now) }
{
    let mut i = cells.len();
    while i > 0 {
        i -= 1;
        todo.push(cells[i])?;
    }
    Ok(())
}
