//! Tuples are inserted into a file, and each is found again.
use crate::fill::{fill_relation, rounds_of};
use crate::tuples::{Width, row_at, values_of};
use std::alloc::{AllocError, Global};

/// Fills files of so many tuples, one after another, and says whether each tuple is found by its
/// key.
pub fn insert(alloc: Global, width: Width, count: u32) -> Result<bool, AllocError> {
    for _ in 0..rounds_of(count) {
        if !are_found(alloc, width, count)? {
            return Ok(false);
        }
    }
    Ok(true)
}

// Inserts so many tuples, and says whether each is found by its key.
fn are_found(alloc: Global, width: Width, count: u32) -> Result<bool, AllocError> {
    let values = values_of(count);
    let Some(relation) = fill_relation(alloc, width, count)? else {
        return Ok(false);
    };
    for n in 0..count {
        if !relation.has(alloc, &row_at(n, values))? {
            return Ok(false);
        }
    }
    Ok(true)
}
