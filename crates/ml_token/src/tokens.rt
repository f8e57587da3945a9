//! Tokens and their faults, by their places in the text.

/// What a token is.
#[derive(Clone, Copy, Debug, PartialEq, Eq)]
pub enum TokenKind {
    /// Letters, digits and `_` behind a small letter; the longest run of symbol characters; `!` or
    /// `;`.
    Name,
    /// A name between two `'`.
    QuotedName,
    /// Letters, digits and `_` behind a capital letter or `_`.
    Variable,
    /// Decimal digits.
    Number,
    /// One of `( ) [ ] { } , |`.
    Punct,
    /// A full stop with layout, `%` or the end of the text behind it.
    End,
    /// The end of the text.
    Eof,
}

/// A token: the bytes of the text from `from` up to, and without, `to`. Only `Eof` has none.
#[derive(Clone, Copy, Debug, PartialEq, Eq)]
pub struct Token {
    pub kind: TokenKind,
    pub from: usize,
    pub to: usize,
}

/// Why no token begins where one should.
#[derive(Clone, Copy, Debug, PartialEq, Eq)]
pub enum TokenFaultKind {
    /// A byte that begins no token, or one that may not stand in a quoted name. Its place.
    BadCharacter,
    /// A quoted name that its line or the text ends. The place of its opening quote.
    OpenQuote,
    /// A comment that nothing closes. The place of its `/*`.
    OpenComment,
    /// A backslash before another byte than those of an escape. The place of the backslash.
    BadEscape,
    /// A number above `MAX_NUMBER`. The place of its first digit.
    NumberTooLarge,
    /// A name of more than `MAX_NAME_BYTES` bytes. The place of the token.
    NameTooLong,
    /// A double quote or a back quote, which begin nothing here. Its place.
    LeftOutQuote,
}

/// The first defect of a text's next token, and its place in the text.
#[derive(Clone, Copy, Debug, PartialEq, Eq)]
pub struct TokenFault {
    pub place: usize,
    pub kind: TokenFaultKind,
}
