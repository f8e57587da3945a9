//! What a built-in did.
ghost use Rattle.ml_heap.specs.Changes.{Changes, variable_count};
ghost use Rattle.ml_search.specs.Builtins.{test_result};
ghost use Rattle.ml_builtin.specs.Outcomes.{Agrees};

use ml_term::Term;

/// What a built-in did.
#[derive(Drop)]
pub enum Outcome {
    /// It failed. Some bindings may have been made, which every mark undoes.
    Failed,
    /// It succeeded.
    Succeeded,
    /// It raises this term, of at most 4,096 nodes. The heap is as it was.
    Raised(Term),
}

// What a test does, which changes nothing.
pub(crate) fn outcome_of_test(holds: bool) -> Outcome
    ensures { (h : Changes) → Agrees h h (test_result holds (variable_count h)) result }
{
    if holds {
        Outcome::Succeeded
    } else {
        Outcome::Failed
    }
}
