//! The search for the answers of a goal, over any desk. It stands on the machine of ml_machine, the
//! loaded programs of ml_program, the desks of ml_desk, the lines of ml_writer, and on ml_search
//! for what a search means. The layer above may use `solve`, which writes all answers of a goal,
//! and `has_answer`, which asks for one. What carries it: both calls are told by lists alone, those
//! that give the replies of the desk's log; and while a search runs, the desk's replies led the
//! search that asks to a move for which the machine stands.
#![tactic(auto)]

mod answer;
mod budget;
mod end;
mod found;
mod goal_end;
mod machine;
mod run;
mod search;

pub use budget::Budget;
pub use found::Found;
pub use goal_end::GoalEnd;
pub use search::{has_answer, solve};
