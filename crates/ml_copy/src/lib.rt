//! Copies of terms from one heap into another, of any size that memory holds: what `findall/3`
//! keeps of its answers, and what a `copy_term/2` by way of a second heap would. It stands on the
//! public calls of ml_heap. The layer above may use `copy_from`. The invariant: the tasks that are
//! left make of the copies so far the one copy that is wanted, so that no long list needs a deep
//! recursion.
#![tactic(auto)]

mod copy;
mod limits;
mod task;
#[cfg(test)]
mod tests;

pub use copy::copy_from;
pub use limits::MAX_COPIED_NODES;
