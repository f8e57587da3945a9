//! One goal of a session.
ghost use Rattle.std.specs.Prelude.{◌≡◌, [], None, IfOk, OnOk};
ghost use mathlib.Core.List.{IsPrefix};
ghost use Rattle.ml_desk.specs.Deaths.{death_of};
ghost use Rattle.ml_program.specs.LoadedProgram.{program_of};
ghost use Rattle.ml_search.specs.GoalSeen.{goal_seen};
ghost use Rattle.ml_search.specs.Seen.{log_seen};
ghost use Rattle.ml_session.specs.Standing.{PassesGoal, point};

use ml_desk::{Desk, DeskStop};
use ml_program::Loaded;
use ml_search::Goal;
use ml_solve::{Budget, GoalEnd, solve};
use ml_writer::Lines;
use std::alloc::Global;

/// Whether a session goes on behind a goal.
#[derive(Clone, Copy)]
pub(crate) enum Course {
    /// The goal raised nothing, and the session goes on.
    GoesOn,
    /// The goal raised a term, and the session is over.
    Fails,
}

/// Runs the goal with number j of a session, and writes its lines.
pub(crate) fn run_goal<D: Desk>(
    alloc: Global,
    program: &Loaded,
    goal: &Goal,
    j: u32,
    budget: &mut Budget,
    desk: &mut D,
    lines: &mut Lines,
) -> Result<Course, DeskStop>
    requires alive { D.died desk.old ≡ None }
    requires declared { D.decls desk.old ≡ (program_of program.now).decls }
    requires finished { lines.old.unfinished ≡ [] }
    ensures passes { IfOk result (λ course. PassesGoal (program_of program.now)
        (goal_seen goal.now) j (point (log_seen (D.log desk.old)) lines.old budget.old.left)
        (point (log_seen (D.log desk.new)) lines.new budget.new.left) course) }
    ensures finished { OnOk result (lines.new.unfinished ≡ []) }
    ensures died { D.died desk.new ≡ death_of result }
    ensures begins { D.died desk.new ≡ None → IsPrefix (D.log desk.old) (D.log desk.new) }
    ensures decls { D.decls desk.new ≡ D.decls desk.old }
    ensures site { D.site desk.new ≡ D.site desk.old }
    ensures stays { D.stays desk.old desk.new }
{
    lines.goal(j)?;
    match solve(alloc, program, goal, budget, desk, lines)? {
        GoalEnd::Finished(n) => {
            lines.count(n)?;
            Ok(Course::GoesOn)
        }
        GoalEnd::Raised(t) => {
            lines.error(&t)?;
            Ok(Course::Fails)
        }
    }
}
