//! The nested regions of one file: a region has a prefix and the items whose keys it begins, unless
//! a longer prefix begins them too.
//! This layer stands on bit lists (`ml_bits`), keys and patterns (`ml_key`) and terms (`ml_term`).
//! The layer above sees a list of prefixes, each with its items in key order, and decides itself
//! where a region is cut and which regions are merged.
//! What carries it: a directory keeps the prefixes in order and knows the longest one that begins a
//! key; a page holds the items of one region.
//! The invariant: each item lies in the region that owns its key, and no item's key begins the key
//! of another.
#![tactic(auto)]

mod directory;
mod item;
mod kept;
pub mod laws;
mod limits;
mod moves;
mod order;
mod page;
mod places;
mod prefixes;
mod regions;
mod searches;
mod sorted_dir;

pub use directory::{Directory, Slot};
pub use item::{Id, Item};
pub use limits::{MAX_REGION_ITEMS, MIN_REGION_ITEMS, PAGE_ITEMS, limits_of_regions};
pub use ml_bits::OutOfMemory;
pub use regions::Regions;
pub use sorted_dir::SortedDir;
