//! Scripts of sessions.
ghost use Rattle.std.specs.Prelude.{◌≡◌, ◌≤◌, IsTrue, IfOk, length};
ghost use Rattle.ml_search.specs.GoalSeen.{goals_seen, last_seen};
ghost use Rattle.ml_search.specs.Limits.{max_goals, max_inferences};
ghost use Rattle.ml_search.specs.WellFormed.{is_script};

use crate::goals::Goals;
use crate::last::Last;
use std::alloc::{AllocError, Global};

/// A session's budget of inferences, 1 to `MAX_INFERENCES`, its goals, at most `MAX_GOALS`, and its
/// end.
#[derive(Drop)]
pub struct Script {
    pub budget: u32,
    pub goals: Goals,
    pub last: Last,
    pub ghost well_formed: { IsTrue
        (is_script (record { budget = budget; goals = goals_seen goals; last = last_seen last })) },
}

impl Script {
    /// The script of a budget, goals and an end.
    pub fn new(budget: u32, goals: Goals, last: Last) -> Script
        requires some { 1 ≤ budget }
        requires few { budget ≤ max_inferences }
        requires goals { length goals ≤ max_goals }
        ensures budget { result.budget ≡ budget }
        ensures goals { result.goals ≡ goals }
        ensures last { result.last ≡ last }
    {
        Script {
            budget,
            goals,
            last,
        }
    }

    /// An equal script.
    pub fn copy_of(&self, alloc: Global) -> Result<Script, AllocError>
        ensures { IfOk result (λ script. script ≡ self.now) }
    {
        Ok(Script {
            budget: self.budget,
            goals: self.goals.copy_of(alloc)?,
            last: self.last.copy_of(alloc)?,
        })
    }
}
