//! Words of a command through the public calls of ml_words. It has tests alone; they stand here
//! since a crate with tests is proved twice.
#![tactic(auto)]

#[cfg(test)]
mod words_rows;
