//! What tokens stand for.
ghost use Rattle.std.specs.Prelude.{◌≡◌, ◌≤◌, length, IfOk};
ghost use Rattle.ml_token.specs.Quoted.{inside};
ghost use Rattle.ml_token.specs.Values.{text_of, name_of, number_of};
ghost use Rattle.ml_token.specs.Limits.{max_number};

use crate::limits::MAX_NUMBER;
use crate::number::small_number;
use crate::quoted::{Part, part_of};
use crate::tokens::{Token, TokenKind};
use std::alloc::{AllocError, Global};

// The bytes of a token.
fn bytes_of<'a>(bytes: &'a [u8], token: &Token) -> &'a [u8]
    requires ordered { token.now.from ≤ token.now.to }
    requires within { token.now.to ≤ length bytes.now }
    ensures { result.now ≡ text_of bytes.now token.now }
{
    let (_, rest) = bytes.split_at(token.from);
    let (text, _) = rest.split_at(token.to - token.from);
    text
}

// The name that the text behind an opening quote spells, up to its end or its first defect.
fn unquoted(alloc: Global, text: &[u8]) -> Result<Vec<u8>, AllocError>
    ensures { IfOk result (λ name. name.items ≡ (inside 0 text.now).name) }
{
    let mut name = Vec::new(alloc);
    let mut rest = text;
    'parts: while let Part::Spelled(b, width) = part_of(rest) {
        name.push(b)?;
        let (_, after) = rest.split_at(width);
        rest = after;
    }
    Ok(name)
}

/// The name that a token of these bytes spells: for a quoted name what its quotes hold, with its
/// escapes taken out; for any other token its bytes. The only error is want of memory.
pub fn name_text(alloc: Global, bytes: &[u8], token: &Token) -> Result<Vec<u8>, AllocError>
    requires ordered { token.now.from ≤ token.now.to }
    requires within { token.now.to ≤ length bytes.now }
    ensures { IfOk result (λ name. name.items ≡ name_of bytes.now token.now) }
{
    if token.kind == TokenKind::QuotedName {
        let (_, rest) = bytes.split_at(token.from);
        match rest {
            [] => Ok(Vec::new(alloc)),
            [_, text @ ..] => unquoted(alloc, text),
        }
    } else {
        Vec::from_slice(alloc, bytes_of(bytes, token))
    }
}

/// The number that a `Number` token of these bytes spells.
pub fn number_value(bytes: &[u8], token: &Token) -> u64
    requires ordered { token.now.from ≤ token.now.to }
    requires within { token.now.to ≤ length bytes.now }
    requires small { number_of bytes.now token.now ≤ max_number }
    ensures { result ≡ number_of bytes.now token.now }
{
    match small_number(bytes_of(bytes, token)) {
        Some(n) => n,
        None => unreachable!(),
    }
}
