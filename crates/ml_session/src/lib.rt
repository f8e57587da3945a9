//! Sessions over any desk: the goals of a script one after another, with one budget, and then the
//! script's end. It stands on the calls of ml_solve for one goal, and on ml_search for what a
//! session means. The layer above may use `attempt_alone`, whose result carries its meaning in its
//! type: a `Sealed` of ml_desk. What carries it: behind each goal the script's session, over all
//! lists that give the replies of the log so far, is what was written and then what the goals that
//! are left come to. The body is generic in what a session passes on its way, so that one which
//! waits there is the same body.
#![tactic(auto)]

mod attempt;
mod ending;
mod goal;
mod goals;
mod passage;
mod recorder;
mod session;

pub use attempt::attempt_alone;
