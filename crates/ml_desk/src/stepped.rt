//! What comes of one step of a session at a shared store.

use crate::death::Death;
use ml_search::Reply;

/// What comes of one step of a session at a shared store.
#[derive(Drop)]
pub enum Stepped {
    /// The operation was carried out and logged, with this reply.
    Done(Reply),
    /// Nothing was done. Others hold units that the step needs, in modes that exclude the one that
    /// it needs, and each of these sessions is younger than the one that steps: its number is
    /// greater. This is the least of their numbers.
    Wait(u32),
    /// The session died, since an older one holds a unit that the step needs. Its changes were
    /// taken back, it holds nothing, and it may begin again.
    Died(Death),
    /// Memory was refused. Nothing was done, and the session is alive.
    OutOfMemory,
}
