//! The parser within the limits of a text.
ghost use Rattle.std.specs.Prelude.{◌≡◌, Err, IfOk, List, Ok, [], ◌∷◌, false};
ghost use Rattle.ml_reader.specs.inside.parser.Parser.{root, expect_term};
ghost use Rattle.ml_reader.specs.inside.parser.Frames.{stack, state_seen};
ghost use Rattle.ml_reader.specs.Grammar.{joins};
ghost use Rattle.ml_reader.specs.Operators.{prefix_of};
ghost use Rattle.ml_reader.specs.Seen.{lexeme_seen, read_seen};
ghost use Rattle.ml_reader.specs.Levels.{is_opening};
ghost use Rattle.ml_reader.specs.inside.parser.LimitedSteps.{bracket_past, check_limits, fault_at};
ghost use Rattle.ml_reader.specs.inside.parser.LimitedSteps.{is_lone, joins_minus, levels};
ghost use Rattle.ml_reader.specs.inside.parser.LimitedSteps.{limited_step, makes_prefix};
ghost use Rattle.ml_reader.specs.inside.parser.LimitedSteps.{name_too_deep, opens_past, past_operand};
ghost use Rattle.ml_reader.specs.inside.parser.LimitedSteps.{past_prefix, stop_within_limits};
ghost use Rattle.ml_reader.specs.inside.parser.LimitedSteps.{token_past, too_many};
ghost use Rattle.ml_reader.specs.inside.parser.LimitsSeen.{limited_step_seen};

use crate::fault::{ReadFault, ReadKind};
use crate::limits::{MAX_CLAUSE_TOKENS, MAX_TEXT_LEVELS};
use crate::parser::frames::{Frame, Next, Refusal, State};
use crate::parser::innermost::{commas, levels_left};
use crate::parser::lexeme::{Lexeme, Read};
use crate::parser::operators::{COMMA, infix_of, is_operator, prefix_of};
use crate::parser::{closes, step};
use ml_term::{MAX_TERM_NODES, Name, nodes_up_to};
use ml_token::MAX_NUMBER;
use std::alloc::{AllocError, Global};

/// Where a token stands.
#[derive(Clone, Copy)]
pub struct TokenPlace {
    /// How many tokens of its clause stand before it.
    pub tokens: usize,
    /// The place of the last of them.
    pub last: usize,
    /// Its own place.
    pub place: usize,
}

/// What a token comes to within the limits.
#[derive(Drop)]
pub enum LimitedStep {
    Go(State),
    /// A clause ended.
    Clause(Read),
    /// A name that is one token too many, and that opens a level past the limit too if what follows
    /// makes a prefix operator of it.
    NameOverLimit(State),
    Stop(ReadFault),
}

// Whether a token joins to the name before it: the parenthesis of its arguments, or the number of a
// bare `-`.
fn joins_to(minus: bool, lexeme: &Lexeme) -> bool
    ensures { result ≡ joins minus (lexeme_seen lexeme.now ∷ []) }
{
    match lexeme {
        Lexeme::OpenParen(tight) => *tight,
        Lexeme::Number(tight, _) => minus && *tight,
        _ => false,
    }
}

/// Whether a token makes a prefix operator of the name before it, if it is an operator.
pub fn makes_prefix(state: &State, lexeme: &Lexeme) -> bool
    ensures { result ≡ makes_prefix (state_seen state.now) (lexeme_seen lexeme.now) }
{
    match state {
        State::AfterName(minus, name, _) => {
            !joins_to(*minus, lexeme) && !closes(lexeme) && is_operator(name)
        }
        _ => false,
    }
}

// Whether a name, as a prefix operator, opens a level past the limit.
fn opens_past_limit(name: &Name, frames: &[Frame]) -> bool
    ensures { result ≡ opens_past (prefix_of name.now) (stack frames.now) }
{
    match prefix_of(name) {
        None => false,
        Some(_) => frames.len() >= MAX_TEXT_LEVELS,
    }
}

/// Whether the name that was read last opens a level past the limit, if it is a prefix operator.
pub fn name_too_deep(state: &State) -> bool
    ensures { result ≡ name_too_deep (state_seen state.now) }
{
    match state {
        State::AfterName(_, name, frames) => opens_past_limit(name, frames.as_slice()),
        _ => false,
    }
}

// Whether a token is an opening bracket.
fn is_opening(lexeme: &Lexeme) -> bool
    ensures { result ≡ is_opening (lexeme_seen lexeme.now) }
{
    match lexeme {
        Lexeme::OpenParen(_) => true,
        Lexeme::OpenList => true,
        Lexeme::OpenCurly => true,
        _ => false,
    }
}

// Whether a bracket opens a level past the limit where so many are open.
fn bracket_past(lexeme: &Lexeme, count: usize) -> bool
    ensures { result ≡ bracket_past (lexeme_seen lexeme.now) count }
{
    is_opening(lexeme) && count >= MAX_TEXT_LEVELS
}

// Whether a bracket or an infix operator behind an operand opens a level past the limit.
fn past_operand(lexeme: &Lexeme, frames: &[Frame]) -> bool
    ensures { result ≡ past_operand (lexeme_seen lexeme.now) (stack frames.now) }
{
    if frames.len() < MAX_TEXT_LEVELS {
        return false;
    }
    match lexeme {
        Lexeme::Name(_, name) => match infix_of(name) {
            None => false,
            Some(s) => levels_left(frames, s.priority) >= MAX_TEXT_LEVELS,
        },
        Lexeme::Comma => commas(frames) && levels_left(frames, COMMA.priority) >= MAX_TEXT_LEVELS,
        other => bracket_past(other, frames.len()),
    }
}

// Whether a bracket behind an operator's name that is no atom opens a level past the limit.
fn past_prefix(name: &Name, lexeme: &Lexeme, frames: &[Frame]) -> bool
    ensures { result ≡ past_prefix (prefix_of name.now) (lexeme_seen lexeme.now)
        (stack frames.now) }
{
    match prefix_of(name) {
        None => bracket_past(lexeme, frames.len()),
        Some(_) => bracket_past(lexeme, 1 + frames.len()),
    }
}

// Whether a token opens a level past the limit, as a bracket or an infix operator. `prefix`: it
// makes a prefix operator of the name before it, if that is one.
fn token_past(prefix: bool, state: &State, lexeme: &Lexeme) -> bool
    ensures { result ≡ token_past prefix (state_seen state.now) (lexeme_seen lexeme.now) }
{
    match state {
        State::ExpectTerm(frames) => bracket_past(lexeme, frames.len()),
        State::AfterOpen(_, frames) => bracket_past(lexeme, 1 + frames.len()),
        State::AfterName(_, name, frames) => {
            if prefix {
                past_prefix(name, lexeme, frames.as_slice())
            } else {
                past_operand(lexeme, frames.as_slice())
            }
        }
        State::AfterTerm(_, _, frames) => past_operand(lexeme, frames.as_slice()),
    }
}

// How many levels are open where a term may begin.
fn levels(state: &State) -> usize
    ensures { result ≡ levels (state_seen state.now) }
{
    match state {
        State::ExpectTerm(frames) => frames.len(),
        State::AfterOpen(_, frames) => 1 + frames.len(),
        State::AfterName(_, _, _) => 0,
        State::AfterTerm(_, _, _) => 0,
    }
}

// Whether a number is one with the bare `-` that was read last.
fn joins_minus(state: &State, tight: bool) -> bool
    ensures { result ≡ joins_minus (state_seen state.now) tight }
{
    match state {
        State::AfterName(minus, _, _) => *minus && tight,
        _ => false,
    }
}

// Whether a token is a number that is in range only behind a minus, and isn't one with it.
fn is_lone(state: &State, lexeme: &Lexeme) -> bool
    ensures { result ≡ is_lone (state_seen state.now) (lexeme_seen lexeme.now) }
{
    match lexeme {
        Lexeme::Number(tight, n) => n.value >= MAX_NUMBER && !joins_minus(state, *tight),
        _ => false,
    }
}

fn stop(kind: ReadKind, place: usize) -> LimitedStep
    ensures { limited_step_seen result ≡ fault_at kind place }
{
    LimitedStep::Stop(ReadFault { place, kind })
}

// A token that is one too many.
fn too_many(here: TokenPlace, next: State) -> LimitedStep
    ensures { limited_step_seen result ≡ too_many here (state_seen next) }
{
    if name_too_deep(&next) {
        LimitedStep::NameOverLimit(next)
    } else {
        stop(ReadKind::ClauseTooLong, here.place)
    }
}

// A token that the parser takes.
fn within(here: TokenPlace, lone: bool, next: State) -> LimitedStep
    ensures { limited_step_seen result ≡ check_limits here false lone (Ok (state_seen next)) }
{
    if levels(&next) > MAX_TEXT_LEVELS {
        stop(ReadKind::TooDeep, here.place)
    } else if here.tokens >= MAX_CLAUSE_TOKENS {
        too_many(here, next)
    } else if lone {
        stop(ReadKind::NumberTooLarge, here.place)
    } else {
        LimitedStep::Go(next)
    }
}

// A token that ends a clause.
fn ended_clause(here: TokenPlace, lone: bool, read: Read) -> LimitedStep
    ensures { limited_step_seen result ≡ check_limits here false lone
        (Ok (expect_term (root (read_seen read ∷ [])))) }
{
    if here.tokens >= MAX_CLAUSE_TOKENS {
        stop(ReadKind::ClauseTooLong, here.place)
    } else if lone {
        stop(ReadKind::NumberTooLarge, here.place)
    } else if nodes_up_to(&read.term, MAX_TERM_NODES) > MAX_TERM_NODES {
        stop(ReadKind::TooManyNodes, read.place)
    } else {
        LimitedStep::Clause(read)
    }
}

// A token that the grammar refuses, unless a limit stands before that. `deep`: it opens a level
// past the limit.
fn stop_within_limits(here: TokenPlace, deep: bool, lone: bool, kind: ReadKind) -> LimitedStep
    ensures { limited_step_seen result ≡ stop_within_limits here deep lone kind }
{
    if deep {
        stop(ReadKind::TooDeep, here.place)
    } else if here.tokens >= MAX_CLAUSE_TOKENS {
        stop(ReadKind::ClauseTooLong, here.place)
    } else if lone {
        stop(ReadKind::NumberTooLarge, here.place)
    } else {
        stop(kind, here.place)
    }
}

// A token that the parser refuses.
fn refuse(here: TokenPlace, deep: bool, lone: bool, refusal: Refusal) -> LimitedStep
    ensures { limited_step_seen result ≡ check_limits here deep lone (Err refusal) }
{
    match refusal {
        Refusal::ManyArguments => stop(ReadKind::ArityTooLarge, here.place),
        Refusal::Clash => stop_within_limits(here, deep, lone, ReadKind::PriorityClash),
        Refusal::Unexpected => stop_within_limits(here, deep, lone, ReadKind::Unexpected),
    }
}

/// The next token within the limits.
pub fn limited_step(
    alloc: Global,
    here: TokenPlace,
    state: State,
    lexeme: Lexeme,
) -> Result<LimitedStep, AllocError>
    ensures { IfOk result (λ r.
        limited_step_seen r ≡ limited_step here (state_seen state) (lexeme_seen lexeme)) }
{
    let prefix = makes_prefix(&state, &lexeme);
    if prefix && name_too_deep(&state) {
        return Ok(stop(ReadKind::TooDeep, here.last));
    }
    let deep = token_past(prefix, &state, &lexeme);
    let lone = is_lone(&state, &lexeme);
    match step(alloc, state, lexeme)? {
        Next::Go(next) => Ok(within(here, lone, next)),
        Next::Clause(read) => Ok(ended_clause(here, lone, read)),
        Next::Stop(refusal) => Ok(refuse(here, deep, lone, refusal)),
    }
}
