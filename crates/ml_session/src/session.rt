//! The session of a script.
ghost use Rattle.std.specs.Prelude.{◌≡◌, [], None, IfOk};
ghost use mathlib.Core.List.{IsPrefix};
ghost use Rattle.ml_desk.specs.Deaths.{death_of};
ghost use Rattle.ml_desk.specs.Sealing.{IsSealed};
ghost use Rattle.ml_program.specs.LoadedProgram.{program_of};
ghost use Rattle.ml_search.specs.ProgramSeen.{script_seen};
ghost use Rattle.ml_search.specs.Seen.{log_seen};

use crate::ending::end_session;
use crate::goals::run_goals;
use crate::passage::Passage;
use ml_desk::{Desk, DeskStop};
use ml_program::Loaded;
use ml_search::{Ending, Script};
use ml_solve::Budget;
use ml_writer::Lines;
use std::alloc::Global;

/// What a session wrote, and how it ended.
#[derive(Drop)]
pub(crate) struct Ran {
    pub lines: Lines,
    pub ending: Ending,
}

/// Runs the session of a script over a desk that was asked nothing.
pub(crate) fn run_session<D: Desk, P: Passage>(
    alloc: Global,
    program: &Loaded,
    script: &Script,
    passage: &P,
    desk: &mut D,
) -> Result<Ran, DeskStop>
    requires empty { D.log desk.old ≡ [] }
    requires alive { D.died desk.old ≡ None }
    requires declared { D.decls desk.old ≡ (program_of program.now).decls }
    ensures meant { IfOk result (λ ran. IsSealed (program_of program.now) (script_seen script.now)
        (log_seen (D.log desk.new)) ran.lines.lines ran.ending) }
    ensures finished { IfOk result (λ ran. ran.lines.unfinished ≡ []) }
    ensures died { D.died desk.new ≡ death_of result }
    ensures begins { D.died desk.new ≡ None → IsPrefix (D.log desk.old) (D.log desk.new) }
    ensures decls { D.decls desk.new ≡ D.decls desk.old }
    ensures site { D.site desk.new ≡ D.site desk.old }
    ensures stays { D.stays desk.old desk.new }
{
    let mut lines = Lines::new(alloc);
    let mut budget = Budget {
        left: script.budget,
    };
    let goals = script.goals.as_slice();
    let failed = run_goals(
        alloc,
        program,
        goals,
        passage,
        &mut budget,
        desk,
        &mut lines,
    )?;
    let ending = match failed {
        Some(j) => Ending::Failed(j),
        None => {
            let j = goals.len() as u32 + 1;
            end_session(
                alloc,
                program,
                &script.last,
                j,
                &mut budget,
                desk,
                &mut lines,
            )?
        }
    };
    passage.at_end();
    Ok(Ran { lines, ending })
}
