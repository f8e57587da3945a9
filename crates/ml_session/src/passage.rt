//! What a session passes on its way.

/// What a session passes on its way: where it may be held up, and nothing else. Nothing is claimed
/// of what the calls do.
pub(crate) trait Passage {
    /// Called before the goal with number j, from 1, is begun.
    fn before_goal(&self, j: u32);

    /// Called when the goals and the goal of the script's end, if it has one, have been searched,
    /// whatever the ending.
    fn at_end(&self);
}

/// A way on which nothing holds a session up.
pub(crate) struct Unhindered;

impl Passage for Unhindered {
    fn before_goal(&self, _j: u32) {}

    fn at_end(&self) {}
}
