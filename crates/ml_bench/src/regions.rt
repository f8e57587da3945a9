//! The regions are counted that a match looks at. No match is made, so that none is longer for
//! being counted.
use crate::fill::fill_relation;
use crate::relation::Given;
use crate::tuples::{Width, asked_row};
use std::alloc::{AllocError, Global};

/// For how many matches the regions are counted.
pub const COUNTED: u32 = 1000;

/// How many regions matches look at.
#[derive(Clone, Copy)]
pub struct RegionsLookedAt {
    /// How many they look at together, a region as often as it is looked at.
    pub looked_at: usize,
    /// How many the file has.
    pub all: usize,
}

/// Counts the regions that 1,000 matches look at in a file of so many tuples. There is none where
/// some tuple came twice.
pub fn regions(
    alloc: Global,
    width: Width,
    given: Given,
    count: u32,
) -> Result<Option<RegionsLookedAt>, AllocError> {
    let Some(relation) = fill_relation(alloc, width, count)? else {
        return Ok(None);
    };
    let mut looked_at = 0usize;
    for n in 0..COUNTED {
        let looked = relation.regions_looked_at(alloc, &asked_row(n, count), given)?;
        looked_at = looked_at.saturating_add(looked);
    }
    Ok(Some(RegionsLookedAt {
        looked_at,
        all: relation.len(),
    }))
}
