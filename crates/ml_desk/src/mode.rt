//! The modes of locks.

/// How a unit of the store is held.
#[derive(Clone, Copy, Debug, PartialEq, Eq)]
pub enum Mode {
    /// Shared: for reading, by any number of sessions.
    S,
    /// Exclusive: for reading and changing, by one session.
    X,
}
