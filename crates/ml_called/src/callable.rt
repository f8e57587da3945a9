//! Whether a term is callable. Its connectives are walked through with a stack of the operands that
//! are left, so that nothing recurs.
ghost use Rattle.std.specs.Prelude.{◌≡◌, ◌+◌, ◌<◌, ◌&&◌, false, true, IfOk, OnOk};
ghost use Rattle.ml_heap.specs.Changes.{AreCells, cell_count, stands_for};
ghost use Rattle.ml_search.specs.Bodies.{is_callable};
ghost use Rattle.ml_search.specs.TypeTests.{is_integer};
ghost use Rattle.ml_term.specs.Tree.{nodes};
ghost use Rattle.ml_called.specs.inside.Pairs.{are_callable, nodes_at};

use crate::pairs::joined_at;
use ml_heap::{Heap, Look, Ref};
use std::alloc::AllocError;

/// Whether a cell's term is callable. What is shared is walked through as often as it stands there,
/// so the size is to be checked first.
pub(crate) fn is_callable_at(heap: &Heap, at: Ref) -> Result<bool, AllocError>
    requires { at < cell_count heap.now }
    ensures { IfOk result (λ callable. callable ≡ is_callable (stands_for heap.now at)) }
{
    let mut left = Vec::new(heap.allocator());
    left.push(at)?;
    while let Some(cell) = left.pop() {
        if !walk(heap, cell, &mut left)? {
            return Ok(false);
        }
    }
    Ok(true)
}

// Whether a cell's term may be callable: it is no integer. The operands of a connective are put
// last, the left one after the right one.
fn walk(heap: &Heap, at: Ref, left: &mut Vec<Ref>) -> Result<bool, AllocError>
    requires { at < cell_count heap.now }
    ensures not { IfOk result (λ may. may ≡ false → is_callable (stands_for heap.now at) ≡ false) }
    ensures left { IfOk result (λ may. may ≡ true → are_callable heap.now left.new.items
        ≡ (are_callable heap.now left.old.items && is_callable (stands_for heap.now at))) }
    ensures inside { OnOk result (AreCells (cell_count heap.now) left.old.items →
        AreCells (cell_count heap.now) left.new.items) }
    ensures fewer { OnOk result (nodes_at heap.now left.new.items
        < nodes_at heap.now left.old.items + nodes (stands_for heap.now at)) }
{
    if let Some(pair) = joined_at(heap, at) {
        left.push(pair.second)?;
        left.push(pair.first)?;
        return Ok(true);
    }
    Ok(!is_integer_at(heap, at))
}

// Whether a cell's term is an integer.
fn is_integer_at(heap: &Heap, at: Ref) -> bool
    requires { at < cell_count heap.now }
    ensures { result ≡ is_integer (stands_for heap.now at) }
{
    match heap.look(at) {
        Look::Int(_) => true,
        _ => false,
    }
}
