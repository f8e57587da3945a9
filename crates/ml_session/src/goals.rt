//! The goals of a session.
ghost use Rattle.std.specs.Prelude.{◌≡◌, ◌≤◌, [], None, IfOk, OnOk, length};
ghost use mathlib.Core.List.{IsPrefix};
ghost use Rattle.ml_desk.specs.Deaths.{death_of};
ghost use Rattle.ml_program.specs.LoadedProgram.{program_of};
ghost use Rattle.ml_search.specs.GoalSeen.{goals_seen};
ghost use Rattle.ml_search.specs.Limits.{max_goals};
ghost use Rattle.ml_search.specs.Seen.{log_seen};
ghost use Rattle.ml_session.specs.Standing.{PassesGoals, point};

use crate::goal::{Course, run_goal};
use crate::passage::Passage;
use ml_desk::{Desk, DeskStop};
use ml_program::Loaded;
use ml_search::Goal;
use ml_solve::Budget;
use ml_writer::Lines;
use std::alloc::Global;

/// Runs the goals of a session one after another, up to the first one that raises a term. Its
/// number, from 1, is the result.
pub(crate) fn run_goals<D: Desk, P: Passage>(
    alloc: Global,
    program: &Loaded,
    goals: &[Goal],
    passage: &P,
    budget: &mut Budget,
    desk: &mut D,
    lines: &mut Lines,
) -> Result<Option<u32>, DeskStop>
    requires few { length goals.now ≤ max_goals }
    requires alive { D.died desk.old ≡ None }
    requires declared { D.decls desk.old ≡ (program_of program.now).decls }
    requires finished { lines.old.unfinished ≡ [] }
    ensures passes { IfOk result (λ failed. PassesGoals (program_of program.now)
        (goals_seen goals.now) (point (log_seen (D.log desk.old)) lines.old budget.old.left)
        (point (log_seen (D.log desk.new)) lines.new budget.new.left) failed) }
    ensures finished { OnOk result (lines.new.unfinished ≡ []) }
    ensures died { D.died desk.new ≡ death_of result }
    ensures begins { D.died desk.new ≡ None → IsPrefix (D.log desk.old) (D.log desk.new) }
    ensures decls { D.decls desk.new ≡ D.decls desk.old }
    ensures site { D.site desk.new ≡ D.site desk.old }
    ensures stays { D.stays desk.old desk.new }
{
    let mut j = 0;
    for goal in goals {
        j += 1;
        passage.before_goal(j);
        match run_goal(alloc, program, goal, j, budget, desk, lines)? {
            Course::GoesOn => {}
            Course::Fails => return Ok(Some(j)),
        }
    }
    Ok(None)
}
