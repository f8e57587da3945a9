//! The texts of a made run: rules with facts that a generator gives, and scripts that ask for them.
//!
//! It stands on ml_term, for decimal numbers. `specs/Facts.antt` gives the generator, and
//! `specs/Texts.antt` the texts. The layer above uses `make_rules` and `make_script`. What carries
//! it: a text is a function of a number, so it is the same each time.
#![tactic(auto)]

mod generator;
mod limits;
mod rows;
mod rules;
mod script;
#[cfg(test)]
mod tests;

pub use limits::{MADE_SCRIPTS, MAX_MADE_FACTS, limits_of_made_runs};
pub use rows::first_made_facts;
pub use rules::make_rules;
pub use script::make_script;
