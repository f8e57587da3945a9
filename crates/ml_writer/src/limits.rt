//! The limit of answers.

/// The most answer bytes of a session: those of its answer lines, with their spaces and line feeds.
pub const MAX_ANSWER_BYTES: usize = 1048576;
