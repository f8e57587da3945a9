//! Loaded programs: the clauses of a program as code, found by predicate, and beside each code its
//! links, so that a call leads on without a name being looked up. It stands on ml_compile and on
//! the definitions of ml_stack. The layer above takes codes by their names, links by places, and
//! what a link tells of a goal by `link_laws`. What carries it: the type `Loaded` keeps `IsLoaded`,
//! by which each predicate with clauses has one procedure, whose codes spell its clauses in order.
#![tactic(auto)]

mod link;
pub mod link_laws;
mod links;
mod loaded;
mod names;
mod procedure;
mod tables;

pub use link::{ControlCall, Link, StoreCall};
pub use links::Links;
pub use loaded::Loaded;
