//! Notes of what a session did to the item under a key.

use ml_bits::Bits;

/// What a session did to the item under a key.
#[derive(Clone, Copy, Debug, PartialEq, Eq)]
pub struct Note {
    /// The place in the session's log of the operation that did it, from 0.
    pub stamp: usize,
    /// Whether the item is there after that operation.
    pub present: bool,
}

/// A note with the item that it is of.
#[derive(Debug, Drop)]
pub struct Noted {
    /// The declaration in whose file the item is, from 0.
    pub pred: u32,
    /// The item's key.
    pub key: Bits,
    /// The place in the session's log of the operation that the note is of.
    pub stamp: usize,
    /// Whether the item is there after that operation.
    pub present: bool,
}
