//! What a seat knows.
use std::collections::LinkedList;

/// The knowledge of one seat about a table of turns. No value of it is made: it stands in proofs
/// alone.
pub struct View<X, E, N> {
    /// The value that the latch was made with. `None`: the seat was taken in by another, and knows
    /// nothing.
    pub start: Option<X>,
    pub number: u64,
    /// The ticket that it drew and that wasn't served to its end, counted from 0 and never reduced.
    pub ticket: Option<u64>,
    /// The value as its turn found it, while it has the turn.
    pub taken: Option<X>,
    /// The past that it has seen.
    pub seen: LinkedList<E>,
    /// The past that the seat which it took in last had seen.
    pub told: LinkedList<E>,
    /// What was done through this seat.
    pub own: LinkedList<N>,
    /// How many seats it gave out.
    pub given: u64,
    /// The number of each seat that it took in, and what was done through that one.
    pub kept: LinkedList<(u64, LinkedList<N>)>,
}
