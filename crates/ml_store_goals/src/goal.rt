//! What a goal that changes lists comes to.

use ml_heap::Ref;
use ml_search::Op;
use ml_term::Term;

/// What a call of a built-in that changes lists comes to.
#[derive(Drop)]
pub enum StoreGoal {
    /// It raises this term, or one that is kept small as it is.
    Raise(Term),
    /// It asks this change. Where no list changes, it fails if one must change, and succeeds else.
    Change {
        op: Op,
        must_change: bool,
    },
    /// It takes out clauses of the list with this number: the clause's head as a pattern, and the
    /// cells of its head and of its body.
    Retract {
        list: u32,
        pattern: Term,
        head: Ref,
        body: Ref,
    },
}
