//! What is open while a text is read.
ghost use Rattle.std.specs.Prelude.{◌<◌, length};
ghost use Rattle.ml_term.specs.Limits.{max_arguments};

use crate::parser::lexeme::Read;
use crate::parser::operators::OperatorPriorities;
use ml_term::{Name, Term};

/// A functor with the arguments that were read, one fewer than it may have at most.
#[derive(Drop)]
pub struct Arguments {
    pub name: Name,
    pub items: Vec<Term>,
    ghost few: { length items.items < max_arguments },
}

/// An open bracket with what was read in it.
#[derive(Drop)]
pub enum Bracket {
    Parens,
    Braces,
    Arguments(Arguments),
    /// A list before its bar.
    ListElements(Vec<Term>),
    /// A list behind its bar.
    ListTail(Vec<Term>),
}

/// One level that is open.
#[derive(Drop)]
pub enum Frame {
    /// A prefix operator that waits for its operand.
    Prefix(Name, OperatorPriorities),
    /// An infix operator with its left operand.
    Infix(Name, OperatorPriorities, Term),
    Open(Bracket),
}

/// Where the parser stands in a clause. The last frame is the innermost.
#[derive(Drop)]
pub enum State {
    /// A term begins here.
    ExpectTerm(Vec<Frame>),
    /// An opening bracket was read, a `[` or else a `{`.
    AfterOpen(bool, Vec<Frame>),
    /// A name was read where a term begins, the bare `-` or another.
    AfterName(bool, Name, Vec<Frame>),
    /// An operand with its priority.
    AfterTerm(u16, Term, Vec<Frame>),
}

/// Why the parser stops at a token.
#[derive(Clone, Copy, Debug, PartialEq, Eq)]
pub enum Refusal {
    Clash,
    Unexpected,
    ManyArguments,
}

/// What a token comes to.
#[derive(Drop)]
pub enum Next {
    Go(State),
    /// A clause ended.
    Clause(Read),
    Stop(Refusal),
}
