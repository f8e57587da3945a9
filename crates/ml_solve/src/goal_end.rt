//! How the search of a goal ends.

use ml_term::Term;

/// How the search of a goal ended.
#[derive(Drop)]
pub enum GoalEnd {
    /// It found all answers, which are so many.
    Finished(u32),
    /// It raised this term: in the search, for want of inferences, or in place of an answer's line
    /// that would pass a limit.
    Raised(Term),
}
