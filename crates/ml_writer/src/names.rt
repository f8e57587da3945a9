//! The text of names.
ghost use Rattle.std.specs.Prelude.{◌≡◌, ◌++◌, OnOk};
ghost use Rattle.std.specs.List.{list_all};
ghost use Rattle.ml_term.specs.Text.{atom_text, is_alphanumeric, is_bare, is_lowercase, is_solo};
ghost use Rattle.ml_term.specs.Text.{is_symbol, is_symbol_name, is_word, opens_comment};
ghost use Rattle.ml_term.specs.Text.{quoted_byte};

use crate::draft::Draft;
use std::alloc::AllocError;

// The letters of the escapes for the bytes 7 to 13.
const ESCAPE_LETTERS: [u8; 7] = *b"abtnvfr";

// Whether a byte is a small letter.
fn is_lowercase(b: u8) -> bool
    ensures { result ≡ is_lowercase b }
{
    b.is_ascii_lowercase()
}

// Whether a byte is a letter, a digit or `_`.
fn is_alphanumeric(b: u8) -> bool
    ensures { result ≡ is_alphanumeric b }
{
    b.is_ascii_alphanumeric() || b == b'_'
}

// Whether a byte is a symbol character.
fn is_symbol(b: u8) -> bool
    ensures { result ≡ is_symbol b }
{
    b"+-*/\\^<>=~:.?@#&$".contains(&b)
}

// Whether each byte is a letter, a digit or `_`.
fn are_alphanumeric(bytes: &[u8]) -> bool
    ensures { result ≡ list_all is_alphanumeric bytes.now }
{
    bytes.iter().all(|b| is_alphanumeric(*b))
}

// Whether each byte is a symbol character.
fn are_symbols(bytes: &[u8]) -> bool
    ensures { result ≡ list_all is_symbol bytes.now }
{
    bytes.iter().all(|b| is_symbol(*b))
}

// Whether a name is a small letter followed by letters, digits and `_`.
fn is_word(name: &[u8]) -> bool
    ensures { result ≡ is_word name.now }
{
    match name {
        [] => false,
        [b, rest @ ..] => is_lowercase(*b) && are_alphanumeric(rest),
    }
}

// Whether a name begins a comment.
fn opens_comment(name: &[u8]) -> bool
    ensures { result ≡ opens_comment name.now }
{
    match name {
        [b, c, ..] => *b == b'/' && *c == b'*',
        _ => false,
    }
}

// Whether a name is a run of symbol characters that is read back as this name.
fn is_symbol_name(name: &[u8]) -> bool
    ensures { result ≡ is_symbol_name name.now }
{
    match name {
        [] => false,
        _ => are_symbols(name) && name != b".".as_slice() && !opens_comment(name),
    }
}

// Whether a name is one of those that stand for themselves.
fn is_solo(name: &[u8]) -> bool
    ensures { result ≡ is_solo name.now }
{
    name == b"[]".as_slice()
        || name == b"{}".as_slice()
        || name == b"!".as_slice()
        || name == b";".as_slice()
}

// Whether a name is written without quotes.
fn is_bare(name: &[u8]) -> bool
    ensures { result ≡ is_bare name.now }
{
    is_word(name) || is_symbol_name(name) || is_solo(name)
}

// Puts a byte of a quoted name behind a text, with its escape where it has one.
fn put_quoted(b: u8, out: &mut Draft) -> Result<(), AllocError>
    ensures kept { out.new.before ≡ out.old.before }
    ensures text { OnOk result (out.new.text ≡ out.old.text ++ quoted_byte b) }
{
    if 7 <= b && b <= 13 {
        out.put(&[b'\\', ESCAPE_LETTERS[(b - 7) as usize]])
    } else if b == b'\\' || b == b'\'' {
        out.put(&[b'\\', b])
    } else {
        out.put(&[b])
    }
}

/// Puts a name as an atom behind a text: bare, or in quotes.
pub(crate) fn put_name(name: &[u8], out: &mut Draft) -> Result<(), AllocError>
    ensures kept { out.new.before ≡ out.old.before }
    ensures text { OnOk result (out.new.text ≡ out.old.text ++ atom_text name.now) }
{
    if is_bare(name) {
        return out.put(name);
    }
    out.put(b"'")?;
    for b in name {
        put_quoted(*b, out)?;
    }
    out.put(b"'")
}
