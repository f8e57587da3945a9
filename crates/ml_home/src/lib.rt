//! Homes of keys: which prefix of a file a key is at home in, and what changes of regions do to it.
//! It stands on nested regions (`ml_region`), their splits (`ml_split`), keys (`ml_key`) and bit
//! lists (`ml_bits`). There is no code: the functions of `laws` and `changes` do nothing, and their
//! contracts are the laws. A layer that locks prefixes uses them, and speaks of no place.
//! What carries it: a prefix that comes begins a key at home in the prefix that it extends, so none
//! lies between the two.
#![tactic(auto)]

pub mod changes;
pub mod laws;
