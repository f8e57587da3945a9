//! The bytes by which the kinds of nodes begin in canonical bytes.

/// A variable; its number in 4 bytes follows.
pub const VARIABLE_TAG: u8 = 0;

/// An integer; 8 bytes follow.
pub const INTEGER_TAG: u8 = 1;

/// An atom; its name follows.
pub const ATOM_TAG: u8 = 2;

/// A compound; its arity, its name and its arguments follow.
pub const COMPOUND_TAG: u8 = 3;
