//! Desks: what answers the operations by which a session asks for the lists, and sessions that are
//! over. It stands on the operations, logs and sessions of ml_search, on terms and bits, and on the
//! lines of ml_writer. The machine asks any desk and knows no more of it than `Desk` says; what
//! stands behind a desk is its own affair. A `Sealed` carries the meaning of a session in its type,
//! so that who enters it into a history needn't know how it ran.
#![tactic(auto)]

mod death;
mod desk;
mod entry;
mod history;
mod mode;
mod sealed;
mod stepped;
mod stop;
#[cfg(test)]
mod tests;

pub use death::Death;
pub use desk::Desk;
pub use entry::Entry;
pub use history::History;
pub use ml_search::{Ending, EntryEnding, Log, Op, Reply};
pub use mode::Mode;
pub use sealed::Sealed;
pub use std::alloc::AllocError as OutOfMemory;
pub use stepped::Stepped;
pub use stop::DeskStop;
