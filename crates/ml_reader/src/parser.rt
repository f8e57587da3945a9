//! The parser: one step for each token, over the frames that are open.
pub mod building;
pub mod context;
pub mod frames;
pub mod innermost;
pub mod lexeme;
pub mod limited;
pub mod operators;
pub mod turn;

ghost use Rattle.std.specs.Prelude.{◌≡◌, ◌||◌, IfOk, Ok, true, false, not};
ghost use Rattle.ml_term.specs.Tree.{no_trees};
ghost use Rattle.ml_reader.specs.Lexemes.{head_tail_separator, comma, open_paren, close_list};
ghost use Rattle.ml_reader.specs.declared.parser.frames.Bracket.TheVariants as kind;
ghost use Rattle.ml_term.specs.Seen.{seen};
ghost use Rattle.ml_reader.specs.Operators.{prefix_of, closes, is_operator};
ghost use Rattle.ml_reader.specs.inside.parser.Parser.{◌▹◌, expect_term};
ghost use Rattle.ml_reader.specs.inside.parser.Parser.{arguments as arguments_frame};
ghost use Rattle.ml_reader.specs.inside.parser.Parser.{finish_operand, infix_operator, follow_term};
ghost use Rattle.ml_reader.specs.inside.parser.Parser.{begin_term, follow_open, prefix_operator};
ghost use Rattle.ml_reader.specs.inside.parser.Parser.{follow_name, operand_or_prefix, step};
ghost use Rattle.ml_reader.specs.Seen.{operator_seen, lexeme_seen};
ghost use Rattle.ml_reader.specs.inside.parser.Frames.{bracket_seen, stack, state_seen, next_seen};
ghost use Rattle.ml_reader.specs.inside.parser.Frames.{few};

use crate::parser::building::{cell_of, compound_of, list_of, one_of, two_of};
use crate::parser::frames::{Arguments, Bracket, Frame, Next, Refusal, State};
use crate::parser::innermost::{commas, limit};
use crate::parser::lexeme::{Lexeme, Read};
use crate::parser::operators::{COMMA, OperatorPriorities, infix_of, is, is_operator, prefix_of};
use ml_term::{MAX_ARGUMENTS, Name, Term};
use std::alloc::{AllocError, Global};

/// Whether a token ends an operand.
pub fn closes(lexeme: &Lexeme) -> bool
    ensures { result ≡ closes (lexeme_seen lexeme.now) }
{
    match lexeme {
        Lexeme::CloseParen => true,
        Lexeme::CloseList => true,
        Lexeme::CloseCurly => true,
        Lexeme::HeadTailSeparator => true,
        Lexeme::Comma => true,
        Lexeme::End(_) => true,
        _ => false,
    }
}

// Another argument behind those that were read.
fn with_argument(arguments: Arguments, t: Term, mut frames: Vec<Frame>) -> Result<Next, AllocError>
    ensures { IfOk result (λ r.
        next_seen r
        ≡ few (finish_operand comma (seen t) (bracket_seen (kind.Arguments arguments) ▹ stack
        frames.items))) }
{
    let Arguments { name, items } = arguments;
    let mut items = items;
    if items.len() >= MAX_ARGUMENTS - 1 {
        return Ok(Next::Stop(Refusal::ManyArguments));
    }
    items.push(t)?;
    frames.push(Frame::Open(Bracket::Arguments(Arguments { name, items })))?;
    Ok(Next::Go(State::ExpectTerm(frames)))
}

// Another element of a list behind those that were read.
fn another_element(
    t: Term,
    mut items: Vec<Term>,
    mut frames: Vec<Frame>,
) -> Result<Next, AllocError>
    ensures { IfOk result (λ r.
        next_seen r
        ≡ few (finish_operand comma (seen t) (bracket_seen (kind.ListElements items) ▹ stack
        frames.items))) }
{
    items.push(t)?;
    frames.push(Frame::Open(Bracket::ListElements(items)))?;
    Ok(Next::Go(State::ExpectTerm(frames)))
}

// The last element of a list before its bar.
fn before_tail(t: Term, mut items: Vec<Term>, mut frames: Vec<Frame>) -> Result<Next, AllocError>
    ensures { IfOk result (λ r.
        next_seen r
        ≡ few (finish_operand head_tail_separator (seen t)
        (bracket_seen (kind.ListElements items) ▹ stack frames.items))) }
{
    items.push(t)?;
    frames.push(Frame::Open(Bracket::ListTail(items)))?;
    Ok(Next::Go(State::ExpectTerm(frames)))
}

// A list without a tail behind its last element.
fn whole_list(
    alloc: Global,
    t: Term,
    items: Vec<Term>,
    frames: Vec<Frame>,
) -> Result<Next, AllocError>
    ensures { IfOk result (λ r.
        next_seen r
        ≡ few (finish_operand close_list (seen t) (bracket_seen (kind.ListElements items) ▹ stack
        frames.items))) }
{
    let end = Term::Atom(Name::new(alloc, b"[]")?);
    let last = cell_of(alloc, t, end)?;
    Ok(Next::Go(State::AfterTerm(0, list_of(alloc, items, last)?, frames)))
}

// A token of a list before its bar, behind an element.
fn in_list(
    alloc: Global,
    lexeme: Lexeme,
    t: Term,
    items: Vec<Term>,
    frames: Vec<Frame>,
) -> Result<Next, AllocError>
    ensures { IfOk result (λ r.
        next_seen r ≡ few (finish_operand (lexeme_seen lexeme) (seen t)
        (bracket_seen (kind.ListElements items) ▹ stack frames.items))) }
{
    match lexeme {
        Lexeme::CloseList => whole_list(alloc, t, items, frames),
        Lexeme::Comma => another_element(t, items, frames),
        Lexeme::HeadTailSeparator => before_tail(t, items, frames),
        _ => Ok(Next::Stop(Refusal::Unexpected)),
    }
}

// A token that is no operator, behind an operand and at its bracket.
fn close_bracket(
    alloc: Global,
    lexeme: Lexeme,
    t: Term,
    bracket: Bracket,
    frames: Vec<Frame>,
) -> Result<Next, AllocError>
    ensures { IfOk result (λ r.
        next_seen r ≡ few (finish_operand (lexeme_seen lexeme) (seen t)
        (bracket_seen bracket ▹ stack frames.items))) }
{
    match bracket {
        Bracket::Parens => match lexeme {
            Lexeme::CloseParen => Ok(Next::Go(State::AfterTerm(0, t, frames))),
            _ => Ok(Next::Stop(Refusal::Unexpected)),
        },
        Bracket::Braces => match lexeme {
            Lexeme::CloseCurly => {
                let name = Name::new(alloc, b"{}")?;
                Ok(Next::Go(State::AfterTerm(0, one_of(alloc, name, t)?, frames)))
            }
            _ => Ok(Next::Stop(Refusal::Unexpected)),
        },
        Bracket::Arguments(arguments) => match lexeme {
            Lexeme::CloseParen => {
                let Arguments { name, items } = arguments;
                Ok(Next::Go(State::AfterTerm(0, compound_of(alloc, name, items, t)?, frames)))
            }
            Lexeme::Comma => with_argument(arguments, t, frames),
            _ => Ok(Next::Stop(Refusal::Unexpected)),
        },
        Bracket::ListElements(items) => in_list(alloc, lexeme, t, items, frames),
        Bracket::ListTail(items) => match lexeme {
            Lexeme::CloseList => Ok(Next::Go(State::AfterTerm(
                0,
                list_of(alloc, items, t)?,
                frames,
            ))),
            _ => Ok(Next::Stop(Refusal::Unexpected)),
        },
    }
}

// An operand ends at a token that is no operator.
fn finish_operand(
    alloc: Global,
    lexeme: Lexeme,
    mut t: Term,
    mut frames: Vec<Frame>,
) -> Result<Next, AllocError>
    ensures { IfOk result (λ r.
        next_seen r ≡ few (finish_operand (lexeme_seen lexeme) (seen t) (stack frames.items))) }
{
    loop {
        match frames.pop() {
            Some(Frame::Prefix(name, _)) => t = one_of(alloc, name, t)?,
            Some(Frame::Infix(name, _, left)) => t = two_of(alloc, name, left, t)?,
            Some(Frame::Open(bracket)) => return close_bracket(alloc, lexeme, t, bracket, frames),
            None => {
                return match lexeme {
                    Lexeme::End(mark) => Ok(Next::Clause(Read {
                        term: t,
                        names: mark.names,
                        place: mark.place,
                    })),
                    _ => Ok(Next::Stop(Refusal::Unexpected)),
                };
            }
        }
    }
}

// An infix operator behind an operand.
fn infix_operator(
    alloc: Global,
    name: Name,
    s: OperatorPriorities,
    mut p: u16,
    mut t: Term,
    mut frames: Vec<Frame>,
) -> Result<Next, AllocError>
    ensures { IfOk result (λ r.
        next_seen r ≡ few (infix_operator true (operator_seen name s) p (seen t)
        (stack frames.items))) }
{
    loop {
        if s.priority <= limit(frames.as_slice()) {
            if p <= s.left {
                frames.push(Frame::Infix(name, s, t))?;
                return Ok(Next::Go(State::ExpectTerm(frames)));
            }
            return Ok(Next::Stop(Refusal::Clash));
        }
        match frames.pop() {
            Some(Frame::Prefix(f, o)) => {
                p = o.priority;
                t = one_of(alloc, f, t)?;
            }
            Some(Frame::Infix(f, o, left)) => {
                p = o.priority;
                t = two_of(alloc, f, left, t)?;
            }
            Some(Frame::Open(_)) => return Ok(Next::Stop(Refusal::Clash)),
            None => return Ok(Next::Stop(Refusal::Clash)),
        }
    }
}

// A token behind an operand.
fn follow_term(
    alloc: Global,
    lexeme: Lexeme,
    p: u16,
    t: Term,
    frames: Vec<Frame>,
) -> Result<Next, AllocError>
    ensures { IfOk result (λ r.
        next_seen r ≡ few (follow_term true (lexeme_seen lexeme) p (seen t) (stack frames.items))) }
{
    match lexeme {
        Lexeme::Name(quoted, name) => match infix_of(&name) {
            Some(s) => infix_operator(alloc, name, s, p, t, frames),
            None => finish_operand(alloc, Lexeme::Name(quoted, name), t, frames),
        },
        Lexeme::Comma => {
            if commas(frames.as_slice()) {
                let name = Name::new(alloc, b",")?;
                infix_operator(alloc, name, COMMA, p, t, frames)
            } else {
                finish_operand(alloc, Lexeme::Comma, t, frames)
            }
        }
        other => finish_operand(alloc, other, t, frames),
    }
}

// A token where a term begins.
fn begin_term(lexeme: Lexeme, mut frames: Vec<Frame>) -> Result<Next, AllocError>
    ensures { IfOk result (λ r.
        next_seen r ≡ few (begin_term (lexeme_seen lexeme) (stack frames.items))) }
{
    match lexeme {
        Lexeme::Name(quoted, name) => {
            let minus = !quoted && is(&name, b"-");
            Ok(Next::Go(State::AfterName(minus, name, frames)))
        }
        Lexeme::Variable(n) => Ok(Next::Go(State::AfterTerm(0, Term::Var(n), frames))),
        Lexeme::Number(_, n) => Ok(Next::Go(State::AfterTerm(
            0,
            Term::Int(n.value as i64),
            frames,
        ))),
        Lexeme::OpenParen(_) => {
            frames.push(Frame::Open(Bracket::Parens))?;
            Ok(Next::Go(State::ExpectTerm(frames)))
        }
        Lexeme::OpenList => Ok(Next::Go(State::AfterOpen(true, frames))),
        Lexeme::OpenCurly => Ok(Next::Go(State::AfterOpen(false, frames))),
        _ => Ok(Next::Stop(Refusal::Unexpected)),
    }
}

// The token behind an opening bracket or brace.
fn follow_open(
    alloc: Global,
    list: bool,
    lexeme: Lexeme,
    frames: Vec<Frame>,
) -> Result<Next, AllocError>
    ensures { IfOk result (λ r.
        next_seen r ≡ few (follow_open list (lexeme_seen lexeme) (stack frames.items))) }
{
    if list {
        after_square(alloc, lexeme, frames)
    } else {
        after_curly(alloc, lexeme, frames)
    }
}

// The token behind a `[`.
fn after_square(alloc: Global, lexeme: Lexeme, mut frames: Vec<Frame>) -> Result<Next, AllocError>
    ensures { IfOk result (λ r.
        next_seen r ≡ few (follow_open true (lexeme_seen lexeme) (stack frames.items))) }
{
    match lexeme {
        Lexeme::CloseList => Ok(Next::Go(State::AfterName(
            false,
            Name::new(alloc, b"[]")?,
            frames,
        ))),
        other => {
            frames.push(Frame::Open(Bracket::ListElements(Vec::new(alloc))))?;
            begin_term(other, frames)
        }
    }
}

// The token behind a `{`.
fn after_curly(alloc: Global, lexeme: Lexeme, mut frames: Vec<Frame>) -> Result<Next, AllocError>
    ensures { IfOk result (λ r.
        next_seen r ≡ few (follow_open false (lexeme_seen lexeme) (stack frames.items))) }
{
    match lexeme {
        Lexeme::CloseCurly => Ok(Next::Go(State::AfterName(
            false,
            Name::new(alloc, b"{}")?,
            frames,
        ))),
        other => {
            frames.push(Frame::Open(Bracket::Braces))?;
            begin_term(other, frames)
        }
    }
}

// The token behind a name that is no atom.
fn prefix_operator(name: Name, lexeme: Lexeme, mut frames: Vec<Frame>) -> Result<Next, AllocError>
    ensures { IfOk result (λ r.
        next_seen r ≡ few (prefix_operator true (prefix_of name) name (lexeme_seen lexeme)
        (stack frames.items))) }
{
    match prefix_of(&name) {
        None => Ok(Next::Stop(Refusal::Unexpected)),
        Some(s) => {
            if s.priority <= limit(frames.as_slice()) {
                frames.push(Frame::Prefix(name, s))?;
                begin_term(lexeme, frames)
            } else {
                Ok(Next::Stop(Refusal::Clash))
            }
        }
    }
}

// The token behind a name that stands where a term begins.
fn operand_or_prefix(
    alloc: Global,
    name: Name,
    lexeme: Lexeme,
    frames: Vec<Frame>,
) -> Result<Next, AllocError>
    ensures { IfOk result (λ r.
        next_seen r
        ≡ few (operand_or_prefix true (not (is_operator name) || closes (lexeme_seen lexeme)) name
        (lexeme_seen lexeme) (stack frames.items))) }
{
    if closes(&lexeme) || !is_operator(&name) {
        follow_term(alloc, lexeme, 0, Term::Atom(name), frames)
    } else {
        prefix_operator(name, lexeme, frames)
    }
}

// The parenthesis of a functor's arguments.
fn open_arguments(alloc: Global, name: Name, mut frames: Vec<Frame>) -> Result<Next, AllocError>
    ensures { IfOk result (λ r.
        next_seen r ≡ Ok (expect_term (arguments_frame name no_trees ▹ stack frames.items))) }
{
    let items = Vec::new(alloc);
    frames.push(Frame::Open(Bracket::Arguments(Arguments { name, items })))?;
    Ok(Next::Go(State::ExpectTerm(frames)))
}

// A parenthesis behind a name that stands where a term begins, the bare `-` or another.
fn behind_name(
    alloc: Global,
    minus: bool,
    name: Name,
    tight: bool,
    frames: Vec<Frame>,
) -> Result<Next, AllocError>
    ensures { IfOk result (λ r.
        next_seen r ≡ few (follow_name true minus name (open_paren tight) (stack frames.items))) }
{
    if tight {
        open_arguments(alloc, name, frames)
    } else {
        operand_or_prefix(alloc, name, Lexeme::OpenParen(false), frames)
    }
}

// The token behind a name that stands where a term begins, the bare `-` or another.
fn follow_name(
    alloc: Global,
    minus: bool,
    name: Name,
    lexeme: Lexeme,
    frames: Vec<Frame>,
) -> Result<Next, AllocError>
    ensures { IfOk result (λ r.
        next_seen r ≡ few (follow_name true minus name (lexeme_seen lexeme) (stack frames.items))) }
{
    match lexeme {
        Lexeme::OpenParen(tight) => behind_name(alloc, minus, name, tight, frames),
        Lexeme::Number(true, n) if minus => {
            Ok(Next::Go(State::AfterTerm(0, Term::Int(-(n.value as i64)), frames)))
        }
        other => operand_or_prefix(alloc, name, other, frames),
    }
}

/// The next token.
pub fn step(alloc: Global, state: State, lexeme: Lexeme) -> Result<Next, AllocError>
    ensures { IfOk result (λ r.
        next_seen r ≡ few (step true (state_seen state) (lexeme_seen lexeme))) }
{
    match state {
        State::ExpectTerm(frames) => begin_term(lexeme, frames),
        State::AfterOpen(list, frames) => follow_open(alloc, list, lexeme, frames),
        State::AfterName(minus, name, frames) => follow_name(alloc, minus, name, lexeme, frames),
        State::AfterTerm(p, t, frames) => follow_term(alloc, lexeme, p, t, frames),
    }
}
