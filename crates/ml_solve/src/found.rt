//! Whether a goal has an answer.

use ml_term::Term;

/// Whether a goal has an answer.
#[derive(Drop)]
pub enum Found {
    /// It has one.
    Yes,
    /// It has none.
    No,
    /// It has none, and its search raised this term.
    Raised(Term),
}
