//! Texts, rules and scripts through their bytes: tables of what is read, and where the others go
//! wrong first. It stands on ml_reader, and has tests alone.
#![tactic(auto)]

#[cfg(test)]
mod rules_rows;
#[cfg(test)]
mod script_rows;
#[cfg(test)]
mod text_rows;
