//! Keys and patterns as code: the key of an item, the pattern that a head asks for, and whether a
//! region may hold an item that fits it.
//! It stands on the terms and their definitions (`ml_term`) and on bit lists (`ml_bits`); the
//! definitions that the contracts cite are theirs.
//! The layer above may use all calls here. What carries it: a code is one word, and a pattern holds
//! at most eight of them, so only a key takes memory, all of it at once.
#![tactic(auto, using(ml_term::proofs::TermSizes::sizes))]

mod canonical;
mod extend;
mod interleaving;
mod key;
pub mod key_laws;
mod limits;
mod pattern;

pub use key::key_of;
pub use limits::{CODE_BITS, MAX_KEY_BITS, MAX_KEYED_PLACES, MAX_NODE_BYTES, VARIABLE_CODE};
pub use ml_term::{MAX_TERM_NODES, code_word as code};
pub use pattern::{Pattern, may_hold, pattern_of};
