//! The limits of codes, keys and patterns.
use ml_term::{MAX_KEYED_ARGUMENTS, MAX_NAME_BYTES};

/// How many bits a code has.
pub const CODE_BITS: usize = 64;

/// The code that every variable has.
pub const VARIABLE_CODE: u64 = 0;

/// How many keyed places a declaration has at most.
pub const MAX_KEYED_PLACES: usize = MAX_KEYED_ARGUMENTS as usize;

/// How many canonical bytes one node has at most: the tag, the arity, and a name behind its length.
pub const MAX_NODE_BYTES: usize = 3 + MAX_NAME_BYTES;

/// How many bits the key of an item has at most: 8 codes, and then 4,096 canonical bytes.
pub const MAX_KEY_BITS: usize = 33_280;

// How many bits a byte has.
pub(crate) const BYTE_BITS: usize = 8;

// How many bits of a clause's storage number stand in its key: all.
pub(crate) const NUMBER_BITS: usize = 64;
