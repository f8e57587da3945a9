//! The goals that change lists: `insert_tuple/1`, `delete_tuple/1`, `asserta/1`, `assertz/1` and
//! `retract/1`. Their checks are made on cells and on loaded programs, in the order of the
//! definitions, each on the cheapest thing that can tell.
//! It stands on the cells of ml_heap, the loaded programs of ml_program, and the errors of
//! ml_raise. The layer above calls `store_goal` where a link leads to such a built-in, raises what
//! it is told to raise, and asks a desk for the rest. What carries it: the checks of each built-in
//! are cut into a look at the cell, the predicate, the size, and what is left, and the first that
//! applies is that of the part in which it stands.
#![tactic(auto)]

mod calls;
mod checked;
mod clauses;
mod given;
mod goal;
mod predicate;
mod retract;
mod sized;
mod tuples;

pub use calls::store_goal;
pub use goal::StoreGoal;
