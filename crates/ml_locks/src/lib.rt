//! The table of locks: which session holds which unit, and in which mode. A unit is a declaration's
//! number with the prefix of a region of its file.
//! It stands on the prefixes of ml_bits and on the modes and deaths of ml_desk. The layer above
//! sees, for each session, declaration and prefix, the mode in which the session holds that unit.
//! What carries it: a unit has one session in any mode or some sessions that all only read, by its
//! type. So no two sessions ever hold a unit where one of them may change it.
#![tactic(auto)]

mod asked;
mod file_locks;
mod holders;
mod laws;
mod table;
mod waiting;

pub use asked::Asked;
pub use laws::{deaths_are_lawful, weakened_after_granted_is_as_before};
pub use ml_bits::OutOfMemory;
pub use table::Table;
