//! Arithmetic on the heap: the integer that an expression comes to, or the fault that the
//! definitions of evaluation give first.
//! It stands on the cells of ml_heap and on ml_search, where evaluation is defined over trees. The
//! layer above uses `eval`, and makes the raised term of a fault. What carries it: the evaluation
//! of the part at hand, followed by the tasks that are still to be done, comes to the wanted value;
//! so nothing recurs, however deep the expression is.
#![tactic(auto)]

mod evaluation;
mod fault;
mod operator;
mod result;
mod step;

pub use evaluation::eval;
pub use fault::{EvalFault, EvalStop};
