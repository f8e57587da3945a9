//! The text of terms and of a session's lines. It stands on the terms of ml_term, and on ml_search
//! for the definitions of a session's lines. The layer above may use `Lines`, `write_term` and
//! `term_text`: contracts see the finished lines, the text of a line that isn't finished, and the
//! number of answer bytes. What carries it: all text is put behind what stands in one list of
//! bytes, and a text that is refused is taken off its end again. A table of the variables that a
//! line met says with which number each is written.
#![tactic(auto, using(ml_term::proofs::TermSizes::nodes_above_zero, ml_term::proofs::TermSizes::arity_of_trees))]

mod draft;
mod entry_line;
pub mod laws;
mod limits;
mod lines;
mod met;
mod names;
mod numbers;
mod piece;
mod stop;
mod terms;

pub use entry_line::session_line;
pub use limits::MAX_ANSWER_BYTES;
pub use lines::{Lines, write_term};
pub use piece::term_text;
pub use stop::LineStop;
