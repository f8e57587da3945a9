//! Loaded programs and goals on the store through the public calls of ml_program and
//! ml_store_goals. It has tests alone; they stand here since a crate with tests is proved twice.
#![tactic(auto)]

#[cfg(test)]
mod program_rows;
#[cfg(test)]
mod store_goal_rows;
