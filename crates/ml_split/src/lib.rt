//! Where a region is split, and that it is split fairly.
//! It stands on nested regions (`ml_region`), their keys (`ml_key`) and bit lists (`ml_bits`); the
//! rule is stated in `specs/Splitting.antt`, over a list of keys. The layer above may use all
//! public calls.
//! What carries it: a prefix that begins more than two thirds of the keys lies on the rule's way.
#![tactic(auto)]

mod further_key;
mod keys;
pub mod laws;
mod limits;
mod meeting_keys;
mod place;
mod region_keys;
mod region_settle;
mod region_split;
pub mod rows;
#[cfg(test)]
mod tests;

pub use further_key::split_for;
pub(crate) use keys::Keys;
pub use ml_bits::OutOfMemory;
pub use ml_region::{MAX_REGION_ITEMS, MIN_REGION_ITEMS};
pub use region_settle::settle;
pub use region_split::{split, split_prefix};
