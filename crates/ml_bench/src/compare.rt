//! Two equal lists are compared by the standard order.
use crate::lists::{ELEMENTS_IN_ALL, Elements, list_of};
use crate::round::compare_and_undo;
use ml_heap::Heap;
use std::alloc::{AllocError, Global};

/// Compares two equal lists of so many elements again and again, and says whether they always were
/// the same.
pub fn compare(alloc: Global, count: u32) -> Result<bool, AllocError> {
    let mut heap = Heap::new(alloc);
    let first = list_of(alloc, &mut heap, count, Elements::Integers)?;
    let second = list_of(alloc, &mut heap, count, Elements::Integers)?;
    let times = ELEMENTS_IN_ALL / count.max(1);
    let mut always = true;
    for _ in 0..times.max(1) {
        always &= compare_and_undo(&mut heap, first, second)?;
    }
    Ok(always)
}
