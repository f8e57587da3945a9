//! A list of variables is taken out of a heap and stored in it again.
use crate::lists::{ELEMENTS_IN_ALL, Elements, list_of};
use crate::round::copy_and_undo;
use ml_heap::{Heap, TreeStop};
use std::alloc::{AllocError, Global};

/// Takes out a list of so many variables and stores it, again and again, and says whether it always
/// was small enough.
pub fn copy(alloc: Global, count: u32) -> Result<bool, AllocError> {
    let mut heap = Heap::new(alloc);
    let list = list_of(alloc, &mut heap, count, Elements::Variables)?;
    let times = ELEMENTS_IN_ALL / count.max(1);
    for _ in 0..times.max(1) {
        match copy_and_undo(&mut heap, list) {
            Ok(()) => {}
            Err(TreeStop::TooLarge) => return Ok(false),
            Err(TreeStop::OutOfMemory) => return Err(AllocError),
        }
    }
    Ok(true)
}
