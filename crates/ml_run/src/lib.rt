//! Runs sessions over what a shelf holds, and prints what they did.
//!
//! It stands on ml_search, which says what a history and its print are, on ml_reader, which reads
//! rules and scripts, on ml_entries, which runs the sessions and makes their blocks, and on
//! ml_outside, where files are fetched and output goes. `specs/Outcomes.antt` says to which inputs
//! or to which first refusal the words lead, `specs/Prints.antt` what is printed; `serial` carries
//! the headline.
#![tactic(auto)]

mod fault;
mod inputs;
mod limits;
mod line;
mod load;
mod run;
mod run_and_print;
mod status;
mod words;

pub use limits::{MAX_SCRIPTS, MAX_TEXT_BYTES, limits_of_runs};
pub use line::line_of;
pub use run::serial;
pub use status::Status;

#[cfg(test)]
mod refused_tests;
#[cfg(test)]
mod tests;
