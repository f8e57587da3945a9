//! Lists that are made on a heap.
ghost use Rattle.std.specs.Prelude.{◌<◌, ◌≤◌, IfOk, OnOk};
ghost use Rattle.ml_heap.specs.Changes.{cell_count};

use ml_heap::{Heap, Ref};
use ml_term::Name;
use std::alloc::{AllocError, Global};

/// How many elements are worked on in all.
pub const ELEMENTS_IN_ALL: u32 = 1000000;

/// What the elements of a list are.
#[derive(Clone, Copy, PartialEq, Eq)]
pub enum Elements {
    /// Variables.
    Variables,
    /// One integer.
    Integers,
}

/// A list of so many elements.
pub fn list_of(
    alloc: Global,
    heap: &mut Heap,
    count: u32,
    elements: Elements,
) -> Result<Ref, AllocError>
    ensures inside { IfOk result (λ r. r < cell_count heap.new) }
    ensures more { OnOk result (cell_count heap.old ≤ cell_count heap.new) }
{
    let dot = Name::new(alloc, b".")?;
    let end = Name::new(alloc, b"[]")?;
    let mut list = heap.new_atom(&end)?;
    for _ in 0..count {
        let first = element(heap, elements)?;
        list = heap.new_cmp(&dot, &[first, list])?;
    }
    Ok(list)
}

// One element.
fn element(heap: &mut Heap, elements: Elements) -> Result<Ref, AllocError>
    ensures inside { IfOk result (λ r. r < cell_count heap.new) }
    ensures more { OnOk result (cell_count heap.old ≤ cell_count heap.new) }
{
    match elements {
        Elements::Variables => Ok(heap.new_var()?),
        Elements::Integers => Ok(heap.new_int(7)?),
    }
}
