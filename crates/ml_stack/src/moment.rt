//! Moments.

use ml_heap::Mark;

/// A moment of a memory: the mark of its heap, and how long its four lists were.
#[derive(Clone, Copy)]
pub struct Moment {
    pub mark: Mark,
    pub frames: usize,
    pub slots: usize,
    pub saved: usize,
    pub codes: usize,
}
