//! Levels, and the stacks that a search has with those that wait for it.

use crate::choice::Choice;
use crate::frame::FrameLink;
use crate::moment::Moment;
use ml_heap::{Mark, Ref};

/// A search that waits for the one inside its `findall/3`: the moment of the call, its choice
/// points, the cells of its asked terms and of its list, and where it goes on. The answers of the
/// search inside are copies on a heap of their own, behind the mark `kept`.
#[derive(Drop)]
pub struct Level {
    pub moment: Moment,
    pub choices: Vec<Choice>,
    pub terms: Vec<Ref>,
    pub list: Ref,
    pub next: FrameLink,
    pub kept: Mark,
    pub found: Vec<Ref>,
}

/// The choice points of the present search, the latest last; the cells of its asked terms; and the
/// searches that wait, the innermost last.
#[derive(Drop)]
pub struct Stacks {
    pub choices: Vec<Choice>,
    pub terms: Vec<Ref>,
    pub levels: Vec<Level>,
}

/// A call of `findall/3`: the cell of its template, that of its list, and where it goes on.
#[derive(Clone, Copy)]
pub struct FindallCall {
    pub template: Ref,
    pub list: Ref,
    pub next: FrameLink,
}

/// What is left to be done where the search inside a `findall/3` is over: its answers are unified
/// with the list, and the search goes on at a link. The answers' heap is undone to `kept` then.
#[derive(Drop)]
pub struct FindallEnd {
    pub list: Ref,
    pub next: FrameLink,
    pub kept: Mark,
    pub found: Vec<Ref>,
}
