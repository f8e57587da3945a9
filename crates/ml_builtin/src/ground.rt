//! Whether a cell's term has no variable. Cells wait on a worklist, so that no long list needs a
//! deep recursion.
ghost use Rattle.std.specs.Prelude.{◌≡◌, ◌+◌, ◌<◌, ◌++◌, ◌&&◌, List, ℕ, true, false, IfOk, OnOk, length};
ghost use Rattle.std.specs.Prelude.{map, reverse};
ghost use Rattle.ml_term.specs.Tree.{is_ground, nodes};
ghost use Rattle.ml_heap.specs.Changes.{AreCells, arguments_of, cell_count, stands_for};
ghost use Rattle.ml_heap.specs.inside.Walks.{nodes_at};
ghost use Rattle.ml_builtin.specs.inside.Grounds.{are_ground_at};

use ml_heap::{Heap, Look, Ref};
use std::alloc::AllocError;

// Whether a cell's term has no variable.
pub(crate) fn is_ground(heap: &Heap, at: Ref) -> Result<bool, AllocError>
    requires { at < cell_count heap.now }
    ensures { IfOk result (λ found. found ≡ is_ground (stands_for heap.now at)) }
{
    let mut left = Vec::new(heap.allocator());
    left.push(at)?;
    while let Some(at) = left.pop() {
        if is_variable_or_leaves(heap, at, &mut left)? {
            return Ok(false);
        }
    }
    Ok(true)
}

// Whether a cell stands for a variable. The arguments of a compound are put last, to be walked.
fn is_variable_or_leaves(heap: &Heap, at: Ref, left: &mut Vec<Ref>) -> Result<bool, AllocError>
    requires { at < cell_count heap.now }
    ensures found { IfOk result (λ found. found ≡ true →
        is_ground (stands_for heap.now at) ≡ false) }
    ensures left { IfOk result (λ found. found ≡ false →
        are_ground_at heap.now left.new.items ≡
        (are_ground_at heap.now left.old.items && is_ground (stands_for heap.now at))) }
    ensures inside { OnOk result (AreCells (cell_count heap.now) left.old.items →
        AreCells (cell_count heap.now) left.new.items) }
    ensures fewer { OnOk result (nodes_at heap.now left.new.items <
        nodes_at heap.now left.old.items + nodes (stands_for heap.now at)) }
{
    match heap.look(at) {
        Look::Var(_) => Ok(true),
        Look::Int(_) => Ok(false),
        Look::Atom(_) => Ok(false),
        Look::Cmp(_, arity) => {
            push_arguments(heap, at, arity, left)?;
            Ok(false)
        }
    }
}

// Puts the cells of a compound's arguments last, the first after all others.
fn push_arguments(heap: &Heap, at: Ref, arity: u8, left: &mut Vec<Ref>) -> Result<(), AllocError>
    requires inside { at < cell_count heap.now }
    requires arity { arity ≡ length (arguments_of (stands_for heap.now at)) }
    ensures { OnOk result ((args : List ℕ) × ((left.new.items ≡ left.old.items ++ reverse args)
        × AreCells (cell_count heap.now) args
        × (map (stands_for heap.now) args ≡ arguments_of (stands_for heap.now at)))) }
{
    let mut i = arity;
    while i > 0 {
        i -= 1;
        left.push(heap.arg(at, i))?;
    }
    Ok(())
}
