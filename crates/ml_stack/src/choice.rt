//! Choice points.

use crate::frame::FrameLink;
use crate::moment::Moment;
use ml_heap::Ref;

/// How an item is used: a tuple that is called, a clause that is called, or a clause that is taken
/// out.
#[derive(Clone, Copy)]
pub enum How {
    Tuple,
    Clause,
    Retract,
}

/// What is left to be tried at a choice point.
#[derive(Clone, Copy)]
pub enum Left {
    /// A branch that goes on at a link.
    Goes(FrameLink),
    /// The clauses of a procedure from this one on. The arguments of the call are saved from a
    /// place on.
    Clauses {
        procedure: u32,
        clause: u32,
        saved: usize,
        next: FrameLink,
    },
    /// The items of a cursor from this one on. What is wanted is the body of a `retract/1`.
    Items {
        how: How,
        goal: Ref,
        wanted: Ref,
        cursor: u32,
        item: u32,
        next: FrameLink,
    },
}

/// A choice point: the moment to which memory goes back, and what is left there.
#[derive(Clone, Copy)]
pub struct Choice {
    pub moment: Moment,
    pub left: Left,
}
