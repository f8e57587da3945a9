//! The end of a session.
ghost use Rattle.std.specs.Prelude.{◌≡◌, [], None, IfOk, OnOk};
ghost use mathlib.Core.List.{IsPrefix};
ghost use Rattle.ml_desk.specs.Deaths.{death_of};
ghost use Rattle.ml_program.specs.LoadedProgram.{program_of};
ghost use Rattle.ml_search.specs.GoalSeen.{goal_seen, last_seen};
ghost use Rattle.ml_search.specs.Program.{unless};
ghost use Rattle.ml_search.specs.Seen.{log_seen};
ghost use Rattle.ml_session.specs.Standing.{PassesEnd, point};

use ml_desk::{Desk, DeskStop};
use ml_program::Loaded;
use ml_search::{Ending, Goal, Last};
use ml_solve::{Budget, Found, has_answer};
use ml_writer::Lines;
use std::alloc::Global;

/// Ends a session that commits unless a goal has an answer. The number j is the one behind the last
/// goal's.
fn end_unless<D: Desk>(
    alloc: Global,
    program: &Loaded,
    goal: &Goal,
    j: u32,
    budget: &mut Budget,
    desk: &mut D,
    lines: &mut Lines,
) -> Result<Ending, DeskStop>
    requires alive { D.died desk.old ≡ None }
    requires declared { D.decls desk.old ≡ (program_of program.now).decls }
    requires finished { lines.old.unfinished ≡ [] }
    ensures passes { IfOk result (λ ending. PassesEnd (program_of program.now)
        (unless (goal_seen goal.now)) j
        (point (log_seen (D.log desk.old)) lines.old budget.old.left)
        (point (log_seen (D.log desk.new)) lines.new budget.new.left) ending) }
    ensures finished { OnOk result (lines.new.unfinished ≡ []) }
    ensures died { D.died desk.new ≡ death_of result }
    ensures begins { D.died desk.new ≡ None → IsPrefix (D.log desk.old) (D.log desk.new) }
    ensures decls { D.decls desk.new ≡ D.decls desk.old }
    ensures site { D.site desk.new ≡ D.site desk.old }
    ensures stays { D.stays desk.old desk.new }
{
    match has_answer(alloc, program, goal, budget, desk)? {
        Found::Yes => Ok(Ending::Refused),
        Found::No => Ok(Ending::Committed),
        Found::Raised(t) => {
            lines.goal(j)?;
            lines.error(&t)?;
            Ok(Ending::Failed(j))
        }
    }
}

/// Ends a session whose goals raised nothing, as its script says. The number j is the one behind
/// the last goal's.
pub(crate) fn end_session<D: Desk>(
    alloc: Global,
    program: &Loaded,
    last: &Last,
    j: u32,
    budget: &mut Budget,
    desk: &mut D,
    lines: &mut Lines,
) -> Result<Ending, DeskStop>
    requires alive { D.died desk.old ≡ None }
    requires declared { D.decls desk.old ≡ (program_of program.now).decls }
    requires finished { lines.old.unfinished ≡ [] }
    ensures passes { IfOk result (λ ending. PassesEnd (program_of program.now)
        (last_seen last.now) j (point (log_seen (D.log desk.old)) lines.old budget.old.left)
        (point (log_seen (D.log desk.new)) lines.new budget.new.left) ending) }
    ensures finished { OnOk result (lines.new.unfinished ≡ []) }
    ensures died { D.died desk.new ≡ death_of result }
    ensures begins { D.died desk.new ≡ None → IsPrefix (D.log desk.old) (D.log desk.new) }
    ensures decls { D.decls desk.new ≡ D.decls desk.old }
    ensures site { D.site desk.new ≡ D.site desk.old }
    ensures stays { D.stays desk.old desk.new }
{
    match last {
        Last::Commit => Ok(Ending::Committed),
        Last::Abort => Ok(Ending::Aborted),
        Last::Unless(goal) => end_unless(alloc, program, goal, j, budget, desk, lines),
    }
}
