//! What a run means: programs, scripts, the search for the answers of a goal, sessions, histories
//! and their print, over plain lists. It stands on ml_term. The layers above prove their code
//! against the definitions of `specs/`, and share the operations, replies, logs, endings and
//! changes of this crate. No definition knows an instruction, a cell, a page or a lock.
#![tactic(auto)]

pub mod answer_laws;
mod change;
mod clause;
mod clauses;
mod decls;
mod ending;
mod goal;
mod goals;
mod last;
pub mod laws;
mod limits;
mod log;
mod names;
mod operation;
pub mod predicate_laws;
mod program;
mod reserved;
pub mod rows;
mod script;
mod unification;

pub use change::{Change, What};
pub use clause::Clause;
pub use clauses::Clauses;
pub use decls::Decls;
pub use ending::{Ending, EntryEnding};
pub use goal::Goal;
pub use goals::Goals;
pub use last::Last;
pub use limits::{
    DEFAULT_INFERENCES, MAX_CHANGES, MAX_DECLARATIONS, MAX_GOALS, MAX_INFERENCES, MAX_ITEM_BYTES,
    MAX_UNIFIER_LEVELS, limits_of_sessions,
};
pub use log::Log;
pub use ml_term::{Decl, Keys, Kind, Pred};
pub use names::Names;
pub use operation::{Op, Reply};
pub use program::Program;
pub use reserved::{is_callable, is_clause_head, is_reserved};
pub use script::Script;
pub use unification::apply::apply;
pub use unification::map::Map;
pub use unification::rename::rename;
pub use unification::{mgu, unifies};
