//! Cells for the terms of instructions.
ghost use Rattle.std.specs.Prelude.{◌≡◌, ℕ, List, [], ◌∷◌, ◌++◌, length, map, IfOk, OnOk, OnErr};
ghost use Rattle.ml_term.specs.Tree.{integer, compound, trees_of};
ghost use Rattle.ml_heap.specs.Changes.{Grows, HasOneMore, AreCells};
ghost use Rattle.ml_heap.specs.Changes.{cell_count, stands_for, variable_count};

use ml_heap::{Heap, Ref};
use ml_term::{Name, is_in_range};
use std::alloc::AllocError;

// A cell of an integer. One that is out of the language's range is refused.
pub(crate) fn new_integer(heap: &mut Heap, value: i64) -> Result<Ref, AllocError>
    ensures made { IfOk result (λ r. HasOneMore heap.old heap.new r (integer value)) }
    ensures counted { variable_count heap.new ≡ variable_count heap.old }
    ensures refused { OnErr result (heap.new ≡ heap.old) }
{
    if !is_in_range(value) {
        return Err(AllocError);
    }
    heap.new_int(value)
}

// The last so many cells become one, of the compound of a name and their terms. A compound without
// arguments is refused. After a refusal all is as before.
pub(crate) fn join_last(
    heap: &mut Heap,
    name: &Name,
    arity: u8,
    cells: &mut Vec<Ref>,
) -> Result<(), AllocError>
    requires { (front : List ℕ) × ((last : List ℕ) × ((cells.old.items ≡ front ++ last)
        × (length last ≡ arity) × AreCells (cell_count heap.old) last)) }
    ensures joined { OnOk result ((front last : List ℕ) → cells.old.items ≡ front ++ last →
        length last ≡ arity →
        (r : ℕ) × ((cells.new.items ≡ front ++ r ∷ []) × HasOneMore heap.old heap.new r
        (compound name.now (trees_of (map (stands_for heap.old) last))))) }
    ensures counted { variable_count heap.new ≡ variable_count heap.old }
    ensures refused { OnErr result (heap.new ≡ heap.old) }
    ensures stays { OnErr result (cells.new.items ≡ cells.old.items) }
{
    if arity == 0 {
        return Err(AllocError);
    }
    let first = cells.len() - arity as usize;
    let made = heap.new_cmp(name, &cells[first..])?;
    cells[first] = made;
    cells.truncate(first + 1);
    Ok(())
}
