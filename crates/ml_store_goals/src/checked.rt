//! What checks come to.

use ml_term::Term;

/// What the checks of a term come to.
#[derive(Drop)]
pub(crate) enum Checked {
    /// None applies: the term that is put or taken out.
    Passes(Term),
    /// One applies, and raises this term.
    Raises(Term),
}

/// What the checks of a predicate come to.
#[derive(Drop)]
pub(crate) enum Listed {
    /// None applies: the number of its list.
    List(u32),
    /// One applies, and raises this term.
    Raises(Term),
}
