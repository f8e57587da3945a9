//! The limits of what is split.
use ml_region::PAGE_ITEMS;

// How many keys are looked at together at most: those of two regions.
pub(crate) const MAX_SPLIT_KEYS: usize = 2 * PAGE_ITEMS;
