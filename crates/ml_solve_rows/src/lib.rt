//! Searches over a desk through the public calls of ml_solve. It has tests alone; they stand here
//! since a crate with tests is proved twice.
#![tactic(auto)]

#[cfg(test)]
mod solve_rows;
