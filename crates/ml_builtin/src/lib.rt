//! The plain built-ins on the heap: what a call of one does to its arguments' cells, exactly as the
//! definitions say of their trees.
//! It stands on the cells of ml_heap, on copies, arithmetic and raised terms, and on ml_search,
//! where the built-ins are defined. The layer above finds a built-in once, by `Plain::of`, and
//! calls `run_builtin`. What carries it: all checks of a built-in are made before a cell is, so
//! that what raises a term changes nothing; and a unification carries every older cell's tree by
//! the definition's map.
#![tactic(auto)]

mod arg;
mod arithmetic;
mod compare;
mod copy_term;
mod functor;
mod ground;
mod lists;
mod outcome;
mod plain;
mod raise;
mod relation;
mod run;
mod seen_types;
mod type_test;
mod unify;
mod univ;

pub use outcome::Outcome;
pub use plain::{Binary, Plain, Ternary};
pub use relation::Relation;
pub use run::run_builtin;
pub use type_test::TypeTest;
