//! Terms of the language.
ghost use Rattle.std.specs.Prelude.{◌≡◌, IsTrue};
ghost use Rattle.ml_term.specs.Seen.{seen};
ghost use Rattle.ml_term.specs.Valid.{is_valid};

use ml_term::Term;

/// A term of the language. Its type keeps that it is one, so that any two of a list can be compared
/// by their keys.
#[derive(Drop)]
pub(crate) struct ValidTerm {
    pub term: Term,
    ghost valid: { IsTrue (is_valid (seen term)) },
}

impl ValidTerm {
    /// The same term.
    pub fn new(term: Term) -> ValidTerm
        requires { IsTrue (is_valid (seen term)) }
        ensures { result.term ≡ term }
    {
        ValidTerm { term }
    }
}
