//! Terms and lines as text through the public calls of ml_writer. It has tests alone; they stand
//! here since a crate with tests is proved twice.
#![tactic(auto)]

#[cfg(test)]
mod text_rows;
