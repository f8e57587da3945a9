//! One token of a text after another, within the limits.
ghost use Rattle.std.specs.Prelude.{◌≡◌, ◌<◌, ◌≤◌, ◌^◌, Err, IfOk, [], false, length};
ghost use Rattle.ml_token.specs.inside.Tokens.{first_token};
ghost use Rattle.ml_token.specs.Values.{StandsIn};
ghost use Rattle.ml_reader.specs.inside.parser.ContextSeen.{IsWithin, context_seen};
ghost use Rattle.ml_reader.specs.Faults.{fault as fault_of, read_kind_of};
ghost use Rattle.ml_reader.specs.inside.parser.Frames.{state_seen};
ghost use Rattle.ml_reader.specs.inside.parser.LimitedSteps.{limited_step};
ghost use Rattle.ml_reader.specs.Tokens.{behind, lexeme};
ghost use Rattle.ml_reader.specs.inside.parser.Turns.{outcome_at_end, outcome_at, place_at};
ghost use Rattle.ml_reader.specs.inside.parser.Turns.{is_between, is_eof, over_limit_kind};
ghost use Rattle.ml_reader.specs.inside.parser.Turns.{stays_open, outcome_of_step, read_outcome};
ghost use Rattle.ml_reader.specs.inside.parser.TurnsSeen.{read_step_seen};

use crate::fault::{ReadFault, ReadKind};
use crate::parser::context::{TokenContext, taken_in};
use crate::parser::frames::State;
use crate::parser::lexeme::Read;
use crate::parser::limited::{LimitedStep, TokenPlace, limited_step, makes_prefix, name_too_deep};
use ml_token::{Token, TokenFault, TokenFaultKind, TokenKind, next_token};
use std::alloc::{AllocError, Global};

/// What a turn comes to.
#[derive(Drop)]
pub enum ReadStep {
    /// A token was taken.
    Go(TokenContext, State),
    /// A clause ended.
    Clause(TokenContext, Read),
    /// The text ends between clauses.
    Whole,
    /// The text's first fault.
    Wrong(ReadFault),
}

// The kind of a token's fault.
fn read_kind_of(kind: TokenFaultKind) -> ReadKind
    ensures { result ≡ read_kind_of kind }
{
    match kind {
        TokenFaultKind::BadCharacter => ReadKind::BadCharacter,
        TokenFaultKind::OpenQuote => ReadKind::OpenQuote,
        TokenFaultKind::OpenComment => ReadKind::OpenComment,
        TokenFaultKind::BadEscape => ReadKind::BadEscape,
        TokenFaultKind::NumberTooLarge => ReadKind::NumberTooLarge,
        TokenFaultKind::NameTooLong => ReadKind::NameTooLong,
        TokenFaultKind::LeftOutQuote => ReadKind::LeftOutQuote,
    }
}

fn is_eof(kind: TokenKind) -> bool
    ensures { result ≡ is_eof kind }
{
    match kind {
        TokenKind::Name => false,
        TokenKind::QuotedName => false,
        TokenKind::Variable => false,
        TokenKind::Number => false,
        TokenKind::Punct => false,
        TokenKind::End => false,
        TokenKind::Eof => true,
    }
}

// Whether the parser stands between clauses.
fn is_between(state: &State) -> bool
    ensures { result ≡ is_between (state_seen state.now) }
{
    match state {
        State::ExpectTerm(frames) => frames.as_slice().is_empty(),
        State::AfterOpen(_, _) => false,
        State::AfterName(_, _, _) => false,
        State::AfterTerm(_, _, _) => false,
    }
}

// The end of the text, which has this many bytes.
fn at_end(len: usize, context: &TokenContext, state: &State) -> ReadStep
    ensures { read_step_seen result ≡ outcome_at_end len (context_seen context.now)
        (state_seen state.now) }
{
    if name_too_deep(state) {
        ReadStep::Wrong(ReadFault {
            place: context.last,
            kind: ReadKind::TooDeep,
        })
    } else if is_between(state) {
        ReadStep::Whole
    } else {
        ReadStep::Wrong(ReadFault {
            place: len,
            kind: ReadKind::Unexpected,
        })
    }
}

// A token that has a fault.
fn at_fault(context: &TokenContext, state: &State, fault: TokenFault) -> ReadStep
    ensures { read_step_seen result ≡ outcome_at [] (context_seen context.now)
        (state_seen state.now) (Err fault) }
{
    if name_too_deep(state) {
        ReadStep::Wrong(ReadFault {
            place: context.last,
            kind: ReadKind::TooDeep,
        })
    } else {
        ReadStep::Wrong(ReadFault {
            place: fault.place,
            kind: read_kind_of(fault.kind),
        })
    }
}

// Whether what stands behind a name makes no atom or functor of it, if it is an operator.
fn stays_open(
    alloc: Global,
    bytes: &[u8],
    context: TokenContext,
    state: &State,
) -> Result<bool, AllocError>
    requires within { context.to ≤ length bytes.now }
    requires counts { IsWithin (context_seen context) }
    requires short { length bytes.now < 2 ^ 32 }
    ensures { IfOk result (λ r.
        r ≡ stays_open bytes.now (context_seen context) (state_seen state.now)
        (first_token bytes.now context.to)) }
{
    match next_token(bytes, context.to) {
        Err(_) => Ok(true),
        Ok(token) => {
            if is_eof(token.kind) {
                return Ok(true);
            }
            let (lexeme, _) = taken_in(alloc, bytes, context, &token)?;
            Ok(makes_prefix(state, &lexeme))
        }
    }
}

// The fault of a name that is one token too many, and that would open a level past the limit.
fn name_over_limit(
    alloc: Global,
    bytes: &[u8],
    context: TokenContext,
    state: &State,
) -> Result<ReadFault, AllocError>
    requires within { context.to ≤ length bytes.now }
    requires counts { IsWithin (context_seen context) }
    requires short { length bytes.now < 2 ^ 32 }
    ensures { IfOk result (λ r.
        r ≡ fault_of
        (over_limit_kind (stays_open bytes.now (context_seen context) (state_seen state.now)
        (first_token bytes.now context.to))) context.last) }
{
    let place = context.last;
    let kind = if stays_open(alloc, bytes, context, state)? {
        ReadKind::TooDeep
    } else {
        ReadKind::ClauseTooLong
    };
    Ok(ReadFault { place, kind })
}

// The next token is taken.
fn take(
    alloc: Global,
    bytes: &[u8],
    context: TokenContext,
    state: State,
    token: &Token,
) -> Result<ReadStep, AllocError>
    requires stands { StandsIn bytes.now context.to token.now }
    requires some { is_eof token.now.kind ≡ false }
    requires counts { IsWithin (context_seen context) }
    requires short { length bytes.now < 2 ^ 32 }
    ensures { IfOk result (λ r.
        read_step_seen r ≡ outcome_of_step bytes.now
        (behind bytes.now (context_seen context) token.now)
        (limited_step (place_at (context_seen context) token.now) (state_seen state)
        (lexeme bytes.now (context_seen context) token.now))) }
{
    let here = TokenPlace {
        tokens: context.tokens,
        last: context.last,
        place: token.from,
    };
    let (lexeme, next) = taken_in(alloc, bytes, context, token)?;
    match limited_step(alloc, here, state, lexeme)? {
        LimitedStep::Go(state) => Ok(ReadStep::Go(next, state)),
        LimitedStep::Clause(read) => Ok(ReadStep::Clause(next, read)),
        LimitedStep::NameOverLimit(state) => Ok(ReadStep::Wrong(name_over_limit(
            alloc, bytes, next, &state,
        )?)),
        LimitedStep::Stop(fault) => Ok(ReadStep::Wrong(fault)),
    }
}

/// One turn: the next token is taken, or the text ends, or its first fault is met.
pub fn next_turn(
    alloc: Global,
    bytes: &[u8],
    context: TokenContext,
    state: State,
) -> Result<ReadStep, AllocError>
    requires within { context.to ≤ length bytes.now }
    requires counts { IsWithin (context_seen context) }
    requires short { length bytes.now < 2 ^ 32 }
    ensures { IfOk result (λ r.
        read_step_seen r ≡ read_outcome bytes.now (context_seen context) (state_seen state)) }
{
    match next_token(bytes, context.to) {
        Err(fault) => Ok(at_fault(&context, &state, fault)),
        Ok(token) => {
            if is_eof(token.kind) {
                Ok(at_end(bytes.len(), &context, &state))
            } else {
                take(alloc, bytes, context, state, &token)
            }
        }
    }
}
