//! What is stored: a tuple or a clause under its key.
ghost use Rattle.std.specs.Prelude.{IsTrue};
ghost use Rattle.ml_term.specs.Seen.{seen};
ghost use Rattle.ml_term.specs.Valid.{is_valid};

use ml_bits::Bits;
use ml_term::Term;

/// Where an item came from: the place in the history of the entry that committed it, from 1, and
/// the number of the change in the log of that entry. A loaded item has the place 0.
#[derive(Clone, Copy, Debug, PartialEq, Eq)]
pub struct Id {
    pub place: u32,
    pub change: u32,
}

/// A tuple or a clause as it is stored.
#[derive(Drop)]
pub struct Item {
    /// By which it is ordered and found.
    pub key: Bits,
    /// The tuple, or the clause as a term `:-`(Head, Body).
    pub term: Term,
    /// The storage number of a clause. A tuple's counts for nothing.
    pub number: u64,
    /// Whether it is committed; if not, it belongs to a session that is live.
    pub committed: bool,
    /// Whether it is a clause that was put first in its list.
    pub front: bool,
    /// Where it came from.
    pub id: Id,
    pub ghost valid: { IsTrue (is_valid (seen term)) },
}
