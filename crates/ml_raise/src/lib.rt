//! The terms that are raised, built from names and from cells of the heap, and kept small: one of
//! over 4,096 nodes is replaced by the error that says so.
//! It stands on ml_term, on the cells of ml_heap, and on ml_search, where the errors are defined.
//! The layers above that make the checks of a goal call it where a check applies.
#![tactic(auto)]

mod cause;
mod errors;
mod limit;
mod small;

pub use cause::{Arithmetic, Domain, TermType};
pub use errors::{
    arity_error, domain_error, error_ball, evaluable_error, evaluation_error, existence_error,
    instantiation_error, permission_error, resource_error, type_error,
};
pub use limit::Limit;
pub use small::{is_too_large, keep_small};
