//! Bit lists: the keys of items and the prefixes of regions, with their order.
//! This layer stands on std alone. The layer above sees a list of truth values and its room, the
//! number of bits that it holds before it takes memory.
//! A list is packed in words of 64 bits, the highest bit first, so that long lists are compared and
//! cut by whole words.
//! The invariant: the words are just enough for the list, and the bits of the last word behind its
//! end are 0.
#![tactic(auto)]

mod bit_list;
mod order;
mod prefix;
mod words;

pub use bit_list::Bits;
pub use std::alloc::AllocError as OutOfMemory;

#[cfg(test)]
mod tests;
