//! Quoted names: what may stand between the quotes, and what it spells.
ghost use Rattle.std.specs.Prelude.{◌≡◌, ◌+◌, ◌≤◌, ◌<◌, ◌^◌, length};
ghost use Rattle.ml_token.specs.Quoted.{escape_of, escape_part, behind_backslash, behind_quote};
ghost use Rattle.ml_token.specs.Quoted.{part_of, inside, quoted_end, quoted_token, IsWithin};

use crate::limits::MAX_NAME_BYTES;
use crate::tokens::{Token, TokenFault, TokenFaultKind, TokenKind};

/// What ends the text between the quotes.
#[derive(Clone, Copy, Debug, PartialEq, Eq)]
pub enum Ending {
    /// The closing quote.
    Closed,
    /// The end of the line or of the text.
    LeftOpen,
    /// A defect at this place.
    Broken(TokenFaultKind),
}

/// What stands first between the quotes.
#[derive(Clone, Copy, Debug, PartialEq, Eq)]
pub enum Part {
    /// A byte of the name, and how many bytes of the text spell it.
    Spelled(u8, usize),
    /// No further byte.
    Last(Ending),
}

// The byte that a backslash before this byte spells.
fn escape_of(b: u8) -> Option<u8>
    ensures { result ≡ escape_of b }
{
    match b {
        b'a' => Some(7),
        b'b' => Some(8),
        b't' => Some(9),
        b'n' => Some(10),
        b'v' => Some(11),
        b'f' => Some(12),
        b'r' => Some(13),
        b'\\' | b'\'' | b'"' | b'`' => Some(b),
        _ => None,
    }
}

fn behind_backslash(text: &[u8]) -> Part
    ensures part { result ≡ behind_backslash text.now }
    ensures within { IsWithin result (1 + length text.now) }
{
    let [b, ..] = text else {
        return Part::Last(Ending::LeftOpen);
    };
    match escape_of(*b) {
        Some(value) => Part::Spelled(value, 2),
        None => Part::Last(Ending::Broken(TokenFaultKind::BadEscape)),
    }
}

fn behind_quote(text: &[u8]) -> Part
    ensures part { result ≡ behind_quote text.now }
    ensures within { IsWithin result (1 + length text.now) }
{
    match text {
        [b'\'', ..] => Part::Spelled(b'\'', 2),
        _ => Part::Last(Ending::Closed),
    }
}

/// What stands first.
pub fn part_of(text: &[u8]) -> Part
    ensures part { result ≡ part_of text.now }
    ensures within { IsWithin result (length text.now) }
{
    let [b, after @ ..] = text else {
        return Part::Last(Ending::LeftOpen);
    };
    match *b {
        b'\'' => behind_quote(after),
        b'\\' => behind_backslash(after),
        b'\n' => Part::Last(Ending::LeftOpen),
        b' '..=b'~' => Part::Spelled(*b, 1),
        _ => Part::Last(Ending::Broken(TokenFaultKind::BadCharacter)),
    }
}

// What an ending makes of a name whose text between the quotes took this width.
fn quoted_end(from: usize, width: usize, ending: Ending) -> Result<Token, TokenFault>
    requires { from + width + 2 < 2 ^ 64 }
    ensures { result ≡ quoted_end from width ending }
{
    match ending {
        Ending::Closed => Ok(Token {
            kind: TokenKind::QuotedName,
            from,
            to: from + width + 2,
        }),
        Ending::LeftOpen => Err(TokenFault {
            place: from,
            kind: TokenFaultKind::OpenQuote,
        }),
        Ending::Broken(kind) => Err(TokenFault {
            place: from + 1 + width,
            kind,
        }),
    }
}

/// The token of the name whose opening quote stands at `from`, before this text, or its first
/// defect.
pub fn quoted_token(from: usize, text: &[u8]) -> Result<Token, TokenFault>
    requires { from + length text.now + 2 < 2 ^ 64 }
    ensures { result ≡ quoted_token from text.now }
{
    let mut held = 0;
    let mut width = 0;
    let mut rest = text;
    'parts: loop {
        match part_of(rest) {
            Part::Last(ending) => return quoted_end(from, width, ending),
            Part::Spelled(_, step) => {
                if held == MAX_NAME_BYTES {
                    return Err(TokenFault {
                        place: from,
                        kind: TokenFaultKind::NameTooLong,
                    });
                }
                held += 1;
                width += step;
                let (_, after) = rest.split_at(step);
                rest = after;
            }
        }
    }
}
