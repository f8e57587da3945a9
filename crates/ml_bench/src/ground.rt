//! A variable is unified with a ground list, as where a list is appended to another one: the cost
//! is not to depend on the list.
use crate::lists::{Elements, list_of};
use crate::round::unify_and_undo;
use ml_heap::Heap;
use std::alloc::{AllocError, Global};

// How often it is done.
const TIMES: u32 = 1000000;

/// Unifies a variable with a ground list of so many elements again and again, and says whether they
/// always had a unifier.
pub fn ground(alloc: Global, count: u32) -> Result<bool, AllocError> {
    let mut heap = Heap::new(alloc);
    let variable = heap.new_var()?;
    let list = list_of(alloc, &mut heap, count, Elements::Integers)?;
    let mut always = true;
    for _ in 0..TIMES {
        always &= unify_and_undo(&mut heap, variable, list)?;
    }
    Ok(always)
}
