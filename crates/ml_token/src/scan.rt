//! The next token of a text.
ghost use Rattle.std.specs.Prelude.{◌≡◌, ◌↔◌, ◌+◌, ◌≤◌, ◌<◌, ◌^◌, length, IfOk, IfErr};
ghost use Rattle.ml_token.specs.declared.tokens.Token.{Token};
ghost use Rattle.ml_token.specs.declared.tokens.TokenFault.{TokenFault};
ghost use Rattle.ml_token.specs.Language.{HasToken, HasFault, SpellsName};
ghost use Rattle.ml_token.specs.inside.Tokens.{token_of_len, fault_of, name_of_len, symbols_at};
ghost use Rattle.ml_token.specs.inside.Tokens.{number_at, token_at, first_token};
ghost use Rattle.ml_token.specs.Bytes.{ends_clause};
ghost use Rattle.ml_token.specs.Values.{text_of, name_of, StandsIn};

use crate::bytes::{Run, TokenStart, is_layout, run_len, token_start};
use crate::gap::{begins_with, gap_len};
use crate::limits::MAX_NAME_BYTES;
use crate::number::small_number;
use crate::quoted::quoted_token;
use crate::tokens::{Token, TokenFault, TokenFaultKind, TokenKind};

// The token of this many bytes.
fn token_of_len(kind: TokenKind, from: usize, len: usize) -> Result<Token, TokenFault>
    requires { from + len < 2 ^ 64 }
    ensures { result ≡ token_of_len kind from len }
{
    Ok(Token {
        kind,
        from,
        to: from + len,
    })
}

fn fault_of(kind: TokenFaultKind, place: usize) -> Result<Token, TokenFault>
    ensures { result ≡ fault_of kind place }
{
    Err(TokenFault { place, kind })
}

// The token of a name of this many bytes, as they stand in the text.
fn name_of_len(kind: TokenKind, from: usize, len: usize) -> Result<Token, TokenFault>
    requires { from + len < 2 ^ 64 }
    ensures { result ≡ name_of_len kind from len }
{
    if len <= MAX_NAME_BYTES {
        token_of_len(kind, from, len)
    } else {
        fault_of(TokenFaultKind::NameTooLong, from)
    }
}

fn number_at(from: usize, text: &[u8]) -> Result<Token, TokenFault>
    requires { from + length text.now < 2 ^ 64 }
    ensures { result ≡ number_at from text.now }
{
    let (digits, _) = text.split_at(run_len(Run::Digit, text));
    match small_number(digits) {
        Some(_) => token_of_len(TokenKind::Number, from, digits.len()),
        None => fault_of(TokenFaultKind::NumberTooLarge, from),
    }
}

// Whether a full stop before these bytes ends a clause.
fn ends_clause(bytes: &[u8]) -> bool
    ensures { result ≡ ends_clause bytes.now }
{
    match bytes {
        [] => true,
        [b, ..] => is_layout(*b) || *b == b'%',
    }
}

fn symbols_at(from: usize, b: u8, after: &[u8]) -> Result<Token, TokenFault>
    requires { from + 1 + length after.now < 2 ^ 64 }
    ensures { result ≡ symbols_at from b after.now }
{
    if b == b'.' && ends_clause(after) {
        token_of_len(TokenKind::End, from, 1)
    } else if b == b'/' && begins_with(b'*', after) {
        fault_of(TokenFaultKind::OpenComment, from)
    } else {
        name_of_len(TokenKind::Name, from, 1 + run_len(Run::Symbol, after))
    }
}

// The token that begins with the first byte, which stands at `from` behind layout and comments.
fn token_at(from: usize, text: &[u8]) -> Result<Token, TokenFault>
    requires { from + length text.now + 2 < 2 ^ 64 }
    ensures { result ≡ token_at from text.now }
{
    let [b, after @ ..] = text else {
        return token_of_len(TokenKind::Eof, from, 0);
    };
    match token_start(*b) {
        TokenStart::Name => name_of_len(TokenKind::Name, from, run_len(Run::Alphanumeric, text)),
        TokenStart::Variable => name_of_len(
            TokenKind::Variable,
            from,
            run_len(Run::Alphanumeric, text),
        ),
        TokenStart::Number => number_at(from, text),
        TokenStart::Symbol => symbols_at(from, *b, after),
        TokenStart::Quote => quoted_token(from, after),
        TokenStart::Solo => token_of_len(TokenKind::Name, from, 1),
        TokenStart::Punct => token_of_len(TokenKind::Punct, from, 1),
        TokenStart::LeftOutQuote => fault_of(TokenFaultKind::LeftOutQuote, from),
        TokenStart::Nothing => fault_of(TokenFaultKind::BadCharacter, from),
    }
}

/// The token that begins at or after `at`, past layout and comments, or the first defect there.
///
/// Nothing is kept from one call to the next: a text is read by calls at the end of the token
/// before.
pub fn next_token(bytes: &[u8], at: usize) -> Result<Token, TokenFault>
    requires { at ≤ length bytes.now }
    ensures token { (t : Token) → (result ≡ Ok t) ↔ HasToken bytes.now at t }
    ensures fault { (f : TokenFault) → (result ≡ Err f) ↔ HasFault bytes.now at f }
    ensures exact { result ≡ first_token bytes.now at }
    ensures name { IfOk result (λ t.
        SpellsName t.kind (text_of bytes.now t) (name_of bytes.now t)) }
    ensures stands { IfOk result (StandsIn bytes.now at) }
    ensures place { IfErr result (λ fault. (at ≤ fault.place) × (fault.place < length bytes.now)) }
{
    let (_, rest) = bytes.split_at(at);
    let gap = gap_len(rest);
    let (_, text) = rest.split_at(gap);
    token_at(at + gap, text)
}
