//! Bytes by what they may stand for, and runs of them.
ghost use Rattle.std.specs.Prelude.{◌≡◌, ◌≤◌, length};
ghost use Rattle.std.specs.List.{prefix_len};
ghost use Rattle.ml_token.specs.Bytes.{is_layout, is_symbol, in_run, token_start};

/// Bytes that may stand side by side in a token or a comment.
#[derive(Clone, Copy, Debug, PartialEq, Eq)]
pub enum Run {
    Alphanumeric,
    Digit,
    Symbol,
    Line,
}

/// What begins with a byte.
#[derive(Clone, Copy, Debug, PartialEq, Eq)]
pub enum TokenStart {
    Name,
    Variable,
    Number,
    Symbol,
    Quote,
    Solo,
    Punct,
    LeftOutQuote,
    Nothing,
}

pub fn is_layout(b: u8) -> bool
    ensures { result ≡ is_layout b }
{
    matches!(b, b'\t' | b'\n' | 12 | b'\r' | b' ')
}

pub fn is_symbol(b: u8) -> bool
    ensures { result ≡ is_symbol b }
{
    b"+-*/\\^<>=~:.?@#&$".contains(&b)
}

pub fn in_run(run: Run, b: u8) -> bool
    ensures { result ≡ in_run run b }
{
    match run {
        Run::Alphanumeric => b.is_ascii_alphanumeric() || b == b'_',
        Run::Digit => b.is_ascii_digit(),
        Run::Symbol => is_symbol(b),
        Run::Line => b != b'\n',
    }
}

/// How many bytes at the front are of the run.
pub fn run_len(run: Run, bytes: &[u8]) -> usize
    ensures run { result ≡ prefix_len (in_run run) bytes.now }
    ensures within { result ≤ length bytes.now }
{
    let mut n = 0;
    let mut rest = bytes;
    while let [b, after @ ..] = rest {
        if !in_run(run, *b) {
            break;
        }
        n += 1;
        rest = after;
    }
    n
}

pub fn token_start(b: u8) -> TokenStart
    ensures { result ≡ token_start b }
{
    if b.is_ascii_lowercase() {
        TokenStart::Name
    } else if b.is_ascii_uppercase() || b == b'_' {
        TokenStart::Variable
    } else if b.is_ascii_digit() {
        TokenStart::Number
    } else if is_symbol(b) {
        TokenStart::Symbol
    } else if b == b'\'' {
        TokenStart::Quote
    } else if b == b'!' || b == b';' {
        TokenStart::Solo
    } else if b"()[]{},|".contains(&b) {
        TokenStart::Punct
    } else if b == b'"' || b == b'`' {
        TokenStart::LeftOutQuote
    } else {
        TokenStart::Nothing
    }
}
