//! The search of a goal over a desk.
ghost use Rattle.std.specs.Prelude.{◌≡◌, None, IfOk};
ghost use mathlib.Core.List.{IsPrefix};
ghost use Rattle.ml_desk.specs.Deaths.{death_of};
ghost use Rattle.ml_program.specs.LoadedProgram.{program_of};
ghost use Rattle.ml_search.specs.GoalSeen.{goal_seen};
ghost use Rattle.ml_search.specs.Seen.{log_seen};
ghost use Rattle.ml_solve.specs.Answered.{IsAnswered};
ghost use Rattle.ml_solve.specs.Asked.{IsFound};

use crate::budget::Budget;
use crate::found::Found;
use crate::goal_end::GoalEnd;
use crate::machine::{find_all, find_first};
use ml_desk::{Desk, DeskStop};
use ml_program::Loaded;
use ml_search::Goal;
use ml_writer::Lines;
use std::alloc::Global;

/// Searches a goal for all its answers, and writes the line of each as it is found. An answer with
/// a term of more than 4,096 nodes raises `resource_error(term)`, and one whose line would pass the
/// limit of answer bytes raises `resource_error(output)`; neither is written, and the search ends
/// there. Of the budget nothing is told where a term was raised. After a death and after want of
/// memory nothing is told of the budget and the lines.
pub fn solve<D: Desk>(
    alloc: Global,
    program: &Loaded,
    goal: &Goal,
    budget: &mut Budget,
    desk: &mut D,
    out: &mut Lines,
) -> Result<GoalEnd, DeskStop>
    requires alive { D.died desk.old ≡ None }
    requires declared { D.decls desk.old ≡ (program_of program.now).decls }

    // Whatever lists without uncommitted items give the replies of the desk's log, the search over
    // them, as the log before changed them, has the answers that were written, and ends so.
    ensures answers { IfOk result (λ end. IsAnswered (program_of program.now) (goal_seen goal.now)
        (log_seen (D.log desk.old)) (log_seen (D.log desk.new)) budget.old.left budget.new.left
        out.old out.new end) }
    ensures died { D.died desk.new ≡ death_of result }
    ensures begins { D.died desk.new ≡ None → IsPrefix (D.log desk.old) (D.log desk.new) }
    ensures decls { D.decls desk.new ≡ D.decls desk.old }
    ensures site { D.site desk.new ≡ D.site desk.old }
    ensures stays { D.stays desk.old desk.new }
{
    find_all(alloc, program, goal, budget, desk, out)
}

/// Searches a goal for its first answer, and stops there. It writes nothing, and so the limits of
/// answers don't matter. Of the budget nothing is told where there is an answer, nor after a death
/// and after want of memory.
pub fn has_answer<D: Desk>(
    alloc: Global,
    program: &Loaded,
    goal: &Goal,
    budget: &mut Budget,
    desk: &mut D,
) -> Result<Found, DeskStop>
    requires alive { D.died desk.old ≡ None }
    requires declared { D.decls desk.old ≡ (program_of program.now).decls }

    // The same lists as with `solve`.
    ensures answers { IfOk result (λ found. IsFound (program_of program.now) (goal_seen goal.now)
        (log_seen (D.log desk.old)) (log_seen (D.log desk.new)) budget.old.left budget.new.left
        found) }
    ensures died { D.died desk.new ≡ death_of result }
    ensures begins { D.died desk.new ≡ None → IsPrefix (D.log desk.old) (D.log desk.new) }
    ensures decls { D.decls desk.new ≡ D.decls desk.old }
    ensures site { D.site desk.new ≡ D.site desk.old }
    ensures stays { D.stays desk.old desk.new }
{
    find_first(alloc, program, goal, budget, desk)
}
