//! Keys and regions through the public calls of ml_key and ml_region. It has tests alone; they
//! stand here since a crate with tests is proved twice.
#![tactic(auto)]

#[cfg(test)]
mod key_rows;
#[cfg(test)]
mod region_rows;
