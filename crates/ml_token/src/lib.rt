//! Cuts a text into its tokens, one at a time and without memory.
//!
//! It stands on nothing. The reader above calls `next_token` from the place where the last token
//! ended, and takes values with `name_text` and `number_value`. What a token is, and which fault
//! comes first, is told by `specs/Language.antt`, the language in words of a grammar. The same as a
//! function of the bytes stands in `specs/inside/Tokens.antt`, for proofs alone. The idea that
//! carries it: one byte tells what begins, and the rest of each token is a longest run.
#![tactic(auto)]

mod bytes;
mod gap;
mod limits;
mod number;
mod quoted;
mod scan;
#[cfg(test)]
mod tests;
pub mod token_laws;
mod tokens;
mod values;

pub use limits::{MAX_NAME_BYTES, MAX_NUMBER};
pub use scan::next_token;
pub use tokens::{Token, TokenFault, TokenFaultKind, TokenKind};
pub use values::{name_text, number_value};
