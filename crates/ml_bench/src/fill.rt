//! Tuples are inserted into a file, and nothing more is done with it.
use crate::relation::Relation;
use crate::tuples::{Width, row_at, values_of};
use std::alloc::{AllocError, Global};

// How many tuples are inserted in all, into one file after another.
const TUPLES: u32 = 320000;

/// How many files of so many tuples are filled, one after another: as many as make 320,000 tuples
/// in all, at least one.
pub fn rounds_of(count: u32) -> u32 {
    (TUPLES / count.max(1)).max(1)
}

/// A file of so many tuples, each inserted alone. There is none where some tuple was there already.
pub fn fill_relation(
    alloc: Global,
    width: Width,
    count: u32,
) -> Result<Option<Relation>, AllocError> {
    let values = values_of(count);
    let mut relation = Relation::new(alloc, width)?;
    for n in 0..count {
        if !relation.insert(alloc, &row_at(n, values))? {
            return Ok(None);
        }
    }
    Ok(Some(relation))
}

/// Fills files of so many tuples, one after another, and says whether no tuple was there already.
pub fn fill(alloc: Global, width: Width, count: u32) -> Result<bool, AllocError> {
    for _ in 0..rounds_of(count) {
        let Some(_relation) = fill_relation(alloc, width, count)? else {
            return Ok(false);
        };
    }
    Ok(true)
}
