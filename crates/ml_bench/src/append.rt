//! A ground list is appended to another one, as the clauses of append/3 do: the result grows at an
//! unbound end, and the last end is unified with the second list.
ghost use Rattle.std.specs.Prelude.{◌≡◌, ◌<◌, ◌≤◌, IfOk, OnOk, IfSome};
ghost use Rattle.ml_heap.specs.Changes.{cell_count, KeepsMarks};

use crate::lists::{ELEMENTS_IN_ALL, Elements, list_of};
use ml_heap::{Heap, Look, Ref};
use ml_term::Name;
use std::alloc::{AllocError, Global};

/// Appends two lists of so many elements again and again, and says whether it always went well.
pub fn append(alloc: Global, count: u32) -> Result<bool, AllocError> {
    let mut heap = Heap::new(alloc);
    let first = list_of(alloc, &mut heap, count, Elements::Integers)?;
    let second = list_of(alloc, &mut heap, count, Elements::Integers)?;
    let dot = Name::new(alloc, b".")?;
    let times = ELEMENTS_IN_ALL / count.max(1);
    let mut always = true;
    for _ in 0..times.max(1) {
        always &= append_and_undo(&mut heap, &dot, first, second, count)?;
    }
    Ok(always)
}

// Appends a list of so many elements to another one, and undoes it.
fn append_and_undo(
    heap: &mut Heap,
    dot: &Name,
    first: Ref,
    second: Ref,
    count: u32,
) -> Result<bool, AllocError>
    requires first_inside { first < cell_count heap.old }
    requires second_inside { second < cell_count heap.old }
    ensures { OnOk result (heap.new ≡ heap.old) }
{
    let mark = heap.mark();
    let appended = append_elements(heap, dot, first, second, count)?;
    heap.undo_to(mark);
    Ok(appended)
}

// Appends a list of so many elements to another one.
fn append_elements(
    heap: &mut Heap,
    dot: &Name,
    first: Ref,
    second: Ref,
    count: u32,
) -> Result<bool, AllocError>
    requires first_inside { first < cell_count heap.old }
    requires second_inside { second < cell_count heap.old }
    ensures { KeepsMarks heap.old heap.new }
{
    let mut end = heap.new_var()?;
    let mut list = first;
    for _ in 0..count {
        let Some((head, tail)) = parts(heap, list) else {
            return Ok(false);
        };
        let Some(next) = push_back(heap, dot, head, end)? else {
            return Ok(false);
        };
        end = next;
        list = tail;
    }
    heap.unify(end, second)
}

// The cells of a list's first element and of its rest.
fn parts(heap: &Heap, list: Ref) -> Option<(Ref, Ref)>
    requires { list < cell_count heap.now }
    ensures { IfSome result (λ both. (both.0 < cell_count heap.now)
        × (both.1 < cell_count heap.now)) }
{
    match heap.look(list) {
        Look::Cmp(_, 2) => Some((heap.arg(list, 0), heap.arg(list, 1))),
        _ => None,
    }
}

// Puts an element at the end of a list, and gives its new end.
fn push_back(heap: &mut Heap, dot: &Name, head: Ref, end: Ref) -> Result<Option<Ref>, AllocError>
    requires head_inside { head < cell_count heap.old }
    requires end_inside { end < cell_count heap.old }
    ensures inside { IfOk result (λ next. IfSome next (λ r. r < cell_count heap.new)) }
    ensures more { OnOk result (cell_count heap.old ≤ cell_count heap.new) }
    ensures marks { KeepsMarks heap.old heap.new }
{
    let next = heap.new_var()?;
    let cell = heap.new_cmp(dot, &[head, next])?;
    if heap.unify(end, cell)? {
        Ok(Some(next))
    } else {
        Ok(None)
    }
}
