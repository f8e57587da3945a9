//! The limit of a copy.

/// The most nodes of a copy; what is shared counts as often as it stands there.
pub const MAX_COPIED_NODES: u32 = 16_777_216;
