//! Where a name stands.

/// A name: the part of the word at this place, counted from 0 with the command word, from this byte
/// on.
#[derive(Clone, Copy, Debug, PartialEq, Eq)]
pub struct Named {
    pub word: usize,
    pub from: usize,
}
