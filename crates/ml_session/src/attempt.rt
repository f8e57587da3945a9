//! Attempts: sessions over a desk, with the log that they leave.
ghost use Rattle.std.specs.Prelude.{◌≡◌, [], None, IfOk};
ghost use mathlib.Core.List.{IsPrefix};
ghost use Rattle.ml_desk.specs.Deaths.{death_of};
ghost use Rattle.ml_desk.specs.Sealing.{IsSealed};
ghost use Rattle.ml_program.specs.LoadedProgram.{program_of};
ghost use Rattle.ml_search.specs.ProgramSeen.{script_seen};
ghost use Rattle.ml_search.specs.Seen.{log_seen};

use crate::passage::{Passage, Unhindered};
use crate::recorder::Recorder;
use crate::session::{Ran, run_session};
use ml_desk::{Desk, DeskStop, Sealed};
use ml_program::Loaded;
use ml_search::{Log, Script};
use std::alloc::Global;

/// Runs the session of a script over a desk that was asked nothing, and notes what it asks.
fn run_noting<D: Desk, P: Passage>(
    alloc: Global,
    program: &Loaded,
    script: &Script,
    passage: &P,
    desk: &mut D,
    notes: &mut Log,
) -> Result<Ran, DeskStop>
    requires empty { D.log desk.old ≡ [] }
    requires blank { notes.old ≡ [] }
    requires alive { D.died desk.old ≡ None }
    requires declared { D.decls desk.old ≡ (program_of program.now).decls }
    ensures noted { IfOk result (λ ran. notes.new ≡ D.log desk.new) }
    ensures meant { IfOk result (λ ran. IsSealed (program_of program.now) (script_seen script.now)
        (log_seen (D.log desk.new)) ran.lines.lines ran.ending) }
    ensures finished { IfOk result (λ ran. ran.lines.unfinished ≡ []) }
    ensures died { D.died desk.new ≡ death_of result }
    ensures begins { D.died desk.new ≡ None → IsPrefix (D.log desk.old) (D.log desk.new) }
    ensures decls { D.decls desk.new ≡ D.decls desk.old }
    ensures site { D.site desk.new ≡ D.site desk.old }
    ensures stays { D.stays desk.old desk.new }
{
    let mut recorder = Recorder {
        desk,
        notes,
        alloc,
        broken: false,
    };
    let ran = run_session(alloc, program, script, passage, &mut recorder)?;
    if recorder.broken {
        return Err(DeskStop::OutOfMemory);
    }
    Ok(ran)
}

/// Runs the session of a script over a desk that was asked nothing, past what stands on its way.
fn attempt_past<D: Desk, P: Passage>(
    alloc: Global,
    program: &Loaded,
    script: &Script,
    number: u32,
    passage: &P,
    desk: &mut D,
) -> Result<Sealed, DeskStop>
    requires empty { D.log desk.old ≡ [] }
    requires alive { D.died desk.old ≡ None }
    requires declared { D.decls desk.old ≡ (program_of program.now).decls }
    ensures meant { IfOk result (λ session. IsSealed (program_of program.now)
        (script_seen script.now) (log_seen (D.log desk.new)) session.lines.lines
        session.ending) }
    ensures number { IfOk result (λ session. session.number ≡ number) }
    ensures log { IfOk result (λ session. session.log ≡ D.log desk.new) }
    ensures program { IfOk result (λ session. session.program ≡ program.now.program) }
    ensures script { IfOk result (λ session. session.script ≡ script.now) }
    ensures died { D.died desk.new ≡ death_of result }
    ensures begins { D.died desk.new ≡ None → IsPrefix (D.log desk.old) (D.log desk.new) }
    ensures decls { D.decls desk.new ≡ D.decls desk.old }
    ensures site { D.site desk.new ≡ D.site desk.old }
    ensures stays { D.stays desk.old desk.new }
{
    let mut log = Log::new(alloc);
    let Ran { lines, ending } = run_noting(alloc, program, script, passage, desk, &mut log)?;
    Ok(Sealed::new(number, lines, ending, log, program.program(), script))
}

/// Runs the session of a script over a desk that was asked nothing. It waits for nobody where its
/// desk waits for nobody. The result is the session with its number and with the desk's log, and
/// its type keeps what it means: over all lists without uncommitted items that give the log's
/// replies, it is the script's session. A session that died or found no memory is over, and nothing
/// of it is told; where memory was refused it didn't die, and the desk may have logged one
/// operation more than was noted.
pub fn attempt_alone<D: Desk>(
    alloc: Global,
    program: &Loaded,
    script: &Script,
    number: u32,
    desk: &mut D,
) -> Result<Sealed, DeskStop>
    requires empty { D.log desk.old ≡ [] }
    requires alive { D.died desk.old ≡ None }
    requires declared { D.decls desk.old ≡ (program_of program.now).decls }
    ensures meant { IfOk result (λ session. IsSealed (program_of program.now)
        (script_seen script.now) (log_seen (D.log desk.new)) session.lines.lines
        session.ending) }
    ensures number { IfOk result (λ session. session.number ≡ number) }
    ensures log { IfOk result (λ session. session.log ≡ D.log desk.new) }
    ensures program { IfOk result (λ session. session.program ≡ program.now.program) }
    ensures script { IfOk result (λ session. session.script ≡ script.now) }
    ensures died { D.died desk.new ≡ death_of result }
    ensures begins { D.died desk.new ≡ None → IsPrefix (D.log desk.old) (D.log desk.new) }
    ensures decls { D.decls desk.new ≡ D.decls desk.old }
    ensures site { D.site desk.new ≡ D.site desk.old }
    ensures stays { D.stays desk.old desk.new }
{
    attempt_past(alloc, program, script, number, &Unhindered, desk)
}
