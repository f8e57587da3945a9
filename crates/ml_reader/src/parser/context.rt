//! What the tokens of a text tell of the next one: its clause's variables, places and length so
//! far.
ghost use Rattle.std.specs.Prelude.{◌≡◌, ◌≢◌, ◌-◌, ◌≤◌, ◌<◌, ◌^◌, IfOk, IsTrue, length};
ghost use Rattle.ml_token.specs.Values.{is_name, name_of, StandsIn};
ghost use Rattle.ml_token.specs.declared.tokens.TokenKind.TheVariants.{QuotedName};
ghost use Rattle.ml_reader.specs.Seen.{lexeme_seen};
ghost use Rattle.ml_reader.specs.Tokens.{behind, behind_variable, lexeme, find_name, first_sign};
ghost use Rattle.ml_reader.specs.Tokens.{clause_end_at, text_start, behind_token, sign};
ghost use Rattle.ml_reader.specs.Tokens.{variable_number};
ghost use Rattle.ml_reader.specs.Lexemes.{end, variable_lexeme};
ghost use Rattle.ml_reader.specs.inside.parser.ContextSeen.{behind_end, context_seen};

use crate::parser::lexeme::{ClauseEnd, Lexeme, Magnitude, Names};
use ml_term::Name;
use ml_token::{Token, TokenKind, name_text, number_value};
use std::alloc::{AllocError, Global};

/// What a token finds before it.
#[derive(Drop)]
pub struct TokenContext {
    /// Where the token before ended.
    pub to: usize,
    /// How many tokens of its clause stand before it.
    pub tokens: usize,
    /// The place of the first of them.
    pub first: usize,
    /// The place of the last of them.
    pub last: usize,
    /// The names of the clause's variables so far but `_`, with their numbers.
    pub names: Names,
    /// How many variables the clause has so far.
    pub variables: u32,
}

impl TokenContext {
    /// What the first token of a text finds before it.
    pub fn new(alloc: Global) -> TokenContext
        ensures { context_seen result ≡ text_start }
    {
        TokenContext {
            to: 0,
            tokens: 0,
            first: 0,
            last: 0,
            names: Names::new(alloc),
            variables: 0,
        }
    }
}

// The number that stands beside a name.
fn find(names: &Names, name: &[u8]) -> Option<u32>
    ensures { result ≡ find_name names.now name.now }
{
    let mut rest = names.as_slice();
    while let Some((first, others)) = rest.split_first() {
        if first.0.as_slice() == name {
            return Some(first.1);
        }
        rest = others;
    }
    None
}

// The punctuation that a byte is.
fn sign_of(tight: bool, b: u8) -> Lexeme
    ensures { lexeme_seen result ≡ sign tight b }
{
    match b {
        b'(' => Lexeme::OpenParen(tight),
        b')' => Lexeme::CloseParen,
        b'[' => Lexeme::OpenList,
        b']' => Lexeme::CloseList,
        b'{' => Lexeme::OpenCurly,
        b'}' => Lexeme::CloseCurly,
        b',' => Lexeme::Comma,
        _ => Lexeme::HeadTailSeparator,
    }
}

// The punctuation that the first byte is.
fn first_sign_of(tight: bool, bytes: &[u8]) -> Lexeme
    ensures { lexeme_seen result ≡ first_sign tight bytes.now }
{
    match bytes {
        [] => Lexeme::HeadTailSeparator,
        [b, ..] => sign_of(tight, *b),
    }
}

// Behind a token that begins no variable and ends no clause.
fn behind_token(context: TokenContext, token: &Token) -> TokenContext
    requires { context.tokens < 2 ^ 64 - 1 }
    ensures { context_seen result ≡ behind_token (context_seen context) token.now context.names
        context.variables }
{
    let first = if context.tokens == 0 {
        token.from
    } else {
        context.first
    };
    TokenContext {
        to: token.to,
        tokens: 1 + context.tokens,
        first,
        last: token.from,
        names: context.names,
        variables: context.variables,
    }
}

// The end of a clause, and what the next clause finds before it.
fn end_of_clause(alloc: Global, context: TokenContext, token: &Token) -> (Lexeme, TokenContext)
    ensures lexeme { lexeme_seen result.0 ≡ end (clause_end_at (context_seen context) token.now) }
    ensures context { context_seen result.1 ≡ behind_end token.now }
{
    let place = if context.tokens == 0 {
        token.from
    } else {
        context.first
    };
    let mark = ClauseEnd {
        names: context.names,
        place,
    };
    let next = TokenContext {
        to: token.to,
        tokens: 0,
        first: token.to,
        last: token.from,
        names: Names::new(alloc),
        variables: 0,
    };
    (Lexeme::End(mark), next)
}

// A variable of this name by its number, and what stands behind it.
fn variable(
    alloc: Global,
    name: &[u8],
    context: TokenContext,
    token: &Token,
) -> Result<(Lexeme, TokenContext), AllocError>
    requires named { IsTrue (is_name name.now) }
    requires tokens { context.tokens < 2 ^ 64 - 1 }
    requires variables { context.variables < 2 ^ 32 - 1 }
    ensures lexeme { IfOk result (λ r.
        lexeme_seen r.0 ≡ variable_lexeme (variable_number (context_seen context) name.now)) }
    ensures context { IfOk result (λ r.
        context_seen r.1 ≡ behind_variable name.now (context_seen context) token.now) }
{
    let n = context.variables;
    if b"_".as_slice() == name {
        let mut next = behind_token(context, token);
        next.variables = 1 + n;
        return Ok((Lexeme::Variable(n), next));
    }
    match find(&context.names, name) {
        Some(known) => Ok((Lexeme::Variable(known), behind_token(context, token))),
        None => {
            let mut next = behind_token(context, token);
            next.names.push(Name::new(alloc, name)?, n)?;
            next.variables = 1 + n;
            Ok((Lexeme::Variable(n), next))
        }
    }
}

// The bytes of a token that is no quoted name, which are the name that it spells.
fn text_at<'a>(bytes: &'a [u8], token: &Token) -> &'a [u8]
    requires ordered { token.now.from ≤ token.now.to }
    requires within { token.now.to ≤ length bytes.now }
    requires bare { token.now.kind ≢ QuotedName }
    ensures { result.now ≡ name_of bytes.now token.now }
{
    let (_, rest) = bytes.split_at(token.from);
    let (text, _) = rest.split_at(token.to - token.from);
    text
}

// The name that a token spells between its quotes.
fn quoted_at(alloc: Global, bytes: &[u8], token: &Token) -> Result<Name, AllocError>
    requires ordered { token.now.from ≤ token.now.to }
    requires within { token.now.to ≤ length bytes.now }
    requires named { IsTrue (is_name (name_of bytes.now token.now)) }
    ensures { IfOk result (λ name. name ≡ name_of bytes.now token.now) }
{
    let text = name_text(alloc, bytes, token)?;
    Name::new(alloc, text.as_slice())
}

/// A token with its value, and what the next one finds before it. The only error is want of memory.
pub fn taken_in(
    alloc: Global,
    bytes: &[u8],
    context: TokenContext,
    token: &Token,
) -> Result<(Lexeme, TokenContext), AllocError>
    requires stands { StandsIn bytes.now context.to token.now }
    requires tokens { context.tokens < 2 ^ 64 - 1 }
    requires variables { context.variables < 2 ^ 32 - 1 }
    ensures lexeme { IfOk result (λ r.
        lexeme_seen r.0 ≡ lexeme bytes.now (context_seen context) token.now) }
    ensures context { IfOk result (λ r.
        context_seen r.1 ≡ behind bytes.now (context_seen context) token.now) }
{
    let tight = token.from == context.to;
    match token.kind {
        TokenKind::Name => {
            let name = Name::new(alloc, text_at(bytes, token))?;
            Ok((Lexeme::Name(false, name), behind_token(context, token)))
        }
        TokenKind::QuotedName => {
            let name = quoted_at(alloc, bytes, token)?;
            Ok((Lexeme::Name(true, name), behind_token(context, token)))
        }
        TokenKind::Variable => variable(alloc, text_at(bytes, token), context, token),
        TokenKind::Number => {
            let value = number_value(bytes, token);
            Ok((
                Lexeme::Number(tight, Magnitude { value }),
                behind_token(context, token),
            ))
        }
        TokenKind::Punct => {
            let (_, rest) = bytes.split_at(token.from);
            Ok((first_sign_of(tight, rest), behind_token(context, token)))
        }
        TokenKind::End => Ok(end_of_clause(alloc, context, token)),
        TokenKind::Eof => Ok((Lexeme::HeadTailSeparator, behind_token(context, token))),
    }
}
