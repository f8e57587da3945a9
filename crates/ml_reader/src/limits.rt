//! The limits of a text.

/// The most levels that may be open at once: each bracket is one until it closes, and each operator
/// until its right operand ends.
pub const MAX_TEXT_LEVELS: usize = 1000;

/// The most tokens of a clause, its end among them.
pub const MAX_CLAUSE_TOKENS: usize = 16384;
