//! Tokens with their values, and clauses as they are read.
ghost use Rattle.std.specs.Prelude.{◌≡◌, ◌++◌, ◌∷◌, ◌≤◌, [], OnOk, OnErr};
ghost use Rattle.ml_token.specs.Limits.{max_number};

use ml_term::{Name, Term};
use std::alloc::{AllocError, Global};
use std::marker::Model;

/// Names of variables, each with its variable's number. Contracts see the list of the pairs.
#[derive(Drop)]
pub struct Names {
    pairs: Vec<(Name, u32)>,
}

impl Model for Names {
    ghost use Rattle.std.specs.Prelude.{List, ℕ};

    ghost Value = { List (List ℕ × ℕ) };

    ghost view = { λ n. n.pairs.items };
}

impl Names {
    /// No names. It takes no memory.
    pub fn new(alloc: Global) -> Names
        ensures { result ≡ [] }
    {
        Names {
            pairs: Vec::new(alloc),
        }
    }

    /// Puts a name with its variable's number at the end.
    pub fn push(&mut self, name: Name, variable: u32) -> Result<(), AllocError>
        ensures ok { OnOk result (self.new ≡ self.old ++ (name, variable) ∷ []) }
        ensures err { OnErr result (self.new ≡ self.old) }
    {
        self.pairs.push((name, variable))?;
        Ok(())
    }

    /// The names with their variables' numbers.
    pub fn as_slice(&self) -> &[(Name, u32)]
        ensures { result.now ≡ self.now }
    {
        self.pairs.as_slice()
    }

    /// The pairs as a vector. It takes no memory.
    pub fn into_vec(self) -> Vec<(Name, u32)>
        ensures { result.items ≡ self }
    {
        let Names { pairs } = self;
        pairs
    }
}

/// What the tokens of a clause tell of it: the names of its variables but `_`, and the place of its
/// first token.
#[derive(Drop)]
pub struct ClauseEnd {
    pub names: Names,
    pub place: usize,
}

/// A clause: its term, whose variables are numbered from 0 by first place, the names of its
/// variables but `_` with their numbers, by first place, and the place of its first token.
#[derive(Drop)]
pub struct Read {
    pub term: Term,
    pub names: Names,
    pub place: usize,
}

/// A number of a text.
#[derive(Clone, Copy)]
pub struct Magnitude {
    pub value: u64,
    ghost small: { value ≤ max_number },
}

/// A token with its value.
#[derive(Drop)]
pub enum Lexeme {
    /// A name, and whether it stands in quotes.
    Name(bool, Name),
    /// A variable by its number in the clause.
    Variable(u32),
    /// A number, and whether it directly follows the token before.
    Number(bool, Magnitude),
    /// An opening parenthesis, and whether it directly follows the token before.
    OpenParen(bool),
    CloseParen,
    OpenList,
    CloseList,
    OpenCurly,
    CloseCurly,
    HeadTailSeparator,
    Comma,
    /// A clause's end, with what the clause's tokens tell of it.
    End(ClauseEnd),
}
