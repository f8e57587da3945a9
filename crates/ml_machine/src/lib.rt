//! The machine: instructions run over a heap and stacks. It stands on the stacks of ml_stack, on
//! the code of ml_compile and ml_program, and on the laws of the search that asks, of ml_asking.
//! The layer above begins a goal by `Machine::begin`, and takes one step after another by `go_on`;
//! where a step asks an operation, it hands in the reply by `reply`, and where it has an answer, it
//! reads the terms by `asked_term`. What carries it:
//! wherever the machine stands for a move of the search that asks, each step leads by some turns of
//! that search to a move for which it stands then. So nothing is chosen when a step is proved: it
//! is said for every move, and the layer above begins with the one that it wants.
#![tactic(auto)]

mod answer;
mod arguments;
mod balls;
mod begin;
mod called;
mod calls;
mod clauses;
mod control;
mod controls;
mod declared;
mod failing;
mod findall;
mod frames;
mod instruction;
mod items;
mod link;
mod lists;
mod machine;
mod plain;
mod position;
mod raising;
mod replies;
mod running;
mod step;
mod store_calls;

pub use begin::is_shown;
pub use machine::Machine;
pub use position::{Awaits, Ended, Position, Then};
