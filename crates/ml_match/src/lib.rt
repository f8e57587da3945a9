//! Clauses entered and goals' arguments built: instructions that are run on a heap. It stands on
//! the instructions of ml_compile, what lists of them spell, and the public calls of ml_heap. The
//! layer above may use `build`, `enter` and `may_match`, and the laws by which what they say of
//! arguments is said of goals and heads. What carries it: terms are built and matched by the
//! instructions that are left, and what these spell stands for itself.
#![tactic(auto)]

mod cells;
mod clause;
mod first;
mod goal;
mod head;
mod laws;
mod matching;
mod mode;
mod variables;

pub use clause::enter;
pub use first::may_match;
pub use goal::build;
pub use laws::heads_are_matched_by_their_arguments;
