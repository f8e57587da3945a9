//! Terms, their orders and their bytes through the public calls of ml_term. It has tests alone;
//! they stand here since a crate with tests is proved twice.
#![tactic(auto)]

#[cfg(test)]
mod bytes_rows;
#[cfg(test)]
mod run_rows;
#[cfg(test)]
mod term_rows;
