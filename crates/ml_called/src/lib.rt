//! Goals that are called: the checks of arguments on cells, and the code of a body that is made
//! when it is called. It stands on the cells of ml_heap, the bodies of ml_search and the compiler.
//! The layer above checks an argument, makes the raised term of a fault, and runs the code of
//! `compile_called` in an environment whose slots begin where `slots` ended. What carries it: the
//! control constructs of a term don't depend on the terms in it, so each of these becomes a
//! variable, and no argument is copied. No call recurs over cells; the compiler recurs over the
//! outline of the term.
#![tactic(auto)]

mod call;
mod callable;
mod checks;
mod fault;
mod laws;
mod outline;
mod pairs;
#[cfg(test)]
mod tests;
mod walk;

pub use call::compile_called;
pub use checks::{ball_fault, goal_fault, list_fault};
pub use fault::ArgumentFault;
pub use laws::{
    a_called_body_has_its_slots, a_changed_body_has_the_changed_terms, a_map_keeps_a_body,
};
