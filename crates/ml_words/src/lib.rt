//! The words of a command, with the places of the names among them.
//!
//! It stands on the kit's `clap`, which says whether a command takes its words, and on nothing of
//! this repository. `specs/Forms.antt` says what each word list is, and `read_words` finds it. What
//! carries it: one walk over the words from the left finds the places of all names, and `clap` is
//! asked only whether it takes the words.
#![tactic(auto)]

mod commands;
mod digits;
mod form;
mod laws;
mod limits;
mod named;
mod walk;
mod words;

pub use laws::words_in_order_are_of_the_form;
pub use limits::{MAX_MADE_DIGITS, MAX_MADE_FACTS, MAX_SCRIPTS, limits_of_words};
pub use named::Named;
pub use words::{Words, WordsStop, read_words};
