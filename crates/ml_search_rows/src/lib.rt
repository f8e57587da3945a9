//! Unifiers, programs, scripts and logs through the public calls of ml_search. It has tests alone;
//! they stand here since a crate with tests is proved twice.
#![tactic(auto)]

#[cfg(test)]
mod log_rows;
#[cfg(test)]
mod program_rows;
#[cfg(test)]
mod unification_rows;
