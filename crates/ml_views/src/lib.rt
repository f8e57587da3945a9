//! What a live session remembers of its own changes and of its cursors: the undo log and the open
//! cursors.
//! It stands on keys as bit lists (`ml_bits`) and on terms (`ml_term`). The layer above sees the
//! undo log as a finite map from declarations and keys to lists of notes, and the cursors as a
//! list. What carries it: a key without notes isn't in the log, so a note that is taken back leaves
//! the log as it was.
#![tactic(auto)]

mod cursors;
mod file_notes;
pub mod laws;
mod note;
mod note_list;
#[cfg(test)]
mod tests;
mod undo;

pub use cursors::{Cursor, Cursors};
pub use ml_bits::OutOfMemory;
pub use note::{Note, Noted};
pub use undo::Undo;
