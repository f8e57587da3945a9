//! Cells and built-ins through the public calls of ml_heap and ml_builtin. It has tests alone;
//! they stand here since a crate with tests is proved twice.
#![tactic(auto)]

#[cfg(test)]
mod binding_rows;
#[cfg(test)]
mod builtin_rows;
#[cfg(test)]
mod heap_rows;
