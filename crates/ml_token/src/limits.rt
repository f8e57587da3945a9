//! The limits of a token.

/// The largest number that digits may spell. The reader takes it only behind a minus.
pub const MAX_NUMBER: u64 = 2305843009213693952;

/// How many bytes a name or a variable's name may have, after escapes.
pub const MAX_NAME_BYTES: usize = 255;
