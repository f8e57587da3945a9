//! The outside of the program: named texts that are fetched and put, and output that is written.
//!
//! It stands on std alone. The layers above are generic over `Shelf` and `Sink`: they may use
//! what is held, what was written and the counts of faults, and nothing else of the outside.
//! `MemShelf` and `MemSink` tell all of that. `DirShelf` and `OutSink` are the trusted edge: they
//! tell their counts, and nothing of what a file or a terminal has.
//! What carries the layer: a failure is told only where it was counted, and no count ever falls.
#![tactic(auto)]

#[cfg(test)]
mod answers;
mod dir_shelf;
mod mem_shelf;
mod mem_sink;
mod out_sink;
mod shelf;
mod sink;
mod transfer;

pub use dir_shelf::DirShelf;
pub use mem_shelf::MemShelf;
pub use mem_sink::MemSink;
pub use out_sink::OutSink;
pub use shelf::{FetchStop, PutStop, Shelf};
pub use sink::{Sink, WriteStop};
