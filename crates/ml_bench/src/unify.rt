//! Two lists are unified: one has variables, the other integers.
use crate::lists::{ELEMENTS_IN_ALL, Elements, list_of};
use crate::round::unify_and_undo;
use ml_heap::Heap;
use std::alloc::{AllocError, Global};

/// Unifies two lists of so many elements again and again, and says whether they always had a
/// unifier.
pub fn unify(alloc: Global, count: u32) -> Result<bool, AllocError> {
    let mut heap = Heap::new(alloc);
    let variables = list_of(alloc, &mut heap, count, Elements::Variables)?;
    let integers = list_of(alloc, &mut heap, count, Elements::Integers)?;
    let times = ELEMENTS_IN_ALL / count.max(1);
    let mut always = true;
    for _ in 0..times.max(1) {
        always &= unify_and_undo(&mut heap, variables, integers)?;
    }
    Ok(always)
}
