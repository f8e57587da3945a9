//! The file of one declaration: its items under their keys, in nested regions.
//! It stands on nested regions (`ml_region`), keys (`ml_key`), terms (`ml_term`) and the lists of a
//! store (`ml_search`). The layer above sees a file as its regions, and its items as one plain
//! list, which `specs/PlainList.antt` defines. What carries it: an item's key tells it from all
//! others, and no region has over 24 items between two calls.
#![tactic(auto)]

mod file;
pub mod laws;
mod order;
mod store;
#[cfg(test)]
mod tests;

pub use file::{BangFile, Put, Took};
pub use ml_bits::OutOfMemory;
pub use ml_split::{MAX_REGION_ITEMS, MIN_REGION_ITEMS};
pub use store::Store;
