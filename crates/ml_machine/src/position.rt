//! Where the machine stands, and what a step leads to.

use ml_heap::Ref;
use ml_search::Op;
use ml_stack::{At, FrameLink, How};
use ml_term::Term;

/// Where the machine stands.
#[derive(Drop)]
pub enum Position {
    /// In a block of instructions.
    Runs(At),
    /// At a link.
    Goes(FrameLink),
    /// Before the call of a cell's term, behind which it goes on at a link.
    Calls(Ref, FrameLink),
    /// A ball looks for its `catch/3` from a link on.
    Throws(Term, FrameLink),
    /// The present branch is over.
    Fails,
}

/// How a search ended: with all its answers, by a ball that nothing caught, or where an inference
/// was to be used and none was left.
#[derive(Drop)]
pub enum Ended {
    Finished,
    Ball(Term),
    Exhausted,
}

/// What the machine does with the reply to what it asks.
#[derive(Clone, Copy)]
pub enum Awaits {
    /// A cursor for a goal, whose items are tried. What is wanted is the body of a `retract/1`.
    Cursor {
        how: How,
        goal: Ref,
        wanted: Ref,
        next: FrameLink,
    },
    /// The item of a cursor with this number, or that there is none.
    Item {
        how: How,
        goal: Ref,
        wanted: Ref,
        cursor: u32,
        item: u32,
        next: FrameLink,
    },
    /// Whether a list was changed. Where it wasn't, the branch is over, or it goes on all the same.
    Change {
        must_change: bool,
        next: FrameLink,
    },
}

/// What a step leads to.
#[derive(Drop)]
pub enum Then {
    /// The search goes on at a position.
    Goes(Position),
    /// An operation is asked, and its reply is awaited.
    Asks(Op, Awaits),
    /// The asked cells stand for an answer of the outermost search, whose present branch is over.
    Answers,
    /// The search is over.
    Over(Ended),
}
