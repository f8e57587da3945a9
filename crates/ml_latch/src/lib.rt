//! A latch: a lock round one value, whose seats take turns by tickets. It stands on `atomic_table`
//! alone. The layer above implements `Kept` and `Job` and uses `Latch` and `Seat`: a turn finds a
//! value whose past begins with all that its seat had seen, and whose list for the seat is as the
//! seat left it; `close` gives the value with all the lists. The invariant is `IsInTurns` of
//! specs/Rule.antt: however the turns interleave there is one value, at home or out with the one
//! seat whose ticket is served, and what each seat knows of it is true.
#![tactic(auto)]

mod job;
mod kept;
mod latch;
mod rule;
mod seat;
mod steps;
mod table;
#[cfg(test)]
mod tests;
mod turn;
mod view;

pub use job::Job;
pub use kept::Kept;
pub use latch::{Latch, OutOfMemory};
pub use seat::Seat;
