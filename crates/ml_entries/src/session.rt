//! One session of a run.
ghost use Rattle.std.specs.Prelude.{◌≡◌, ◌++◌, suc, true, IfOk, OnOk, OnErr};
ghost use Rattle.std.specs.List.{flat_map};
ghost use Rattle.ml_list_desk.specs.Items.{lists_seen};
ghost use Rattle.ml_program.specs.LoadedProgram.{program_of};
ghost use Rattle.ml_search.specs.Db.{mine};
ghost use Rattle.ml_search.specs.History.{commit_at};
ghost use Rattle.ml_search.specs.Operations.{is_log};
ghost use Rattle.ml_search.specs.Printed.{ending_text, session_line};
ghost use Rattle.ml_search.specs.ProgramSeen.{script_seen};
ghost use Rattle.ml_search.specs.Replay.{db_after_log, Replays};
ghost use Rattle.ml_search.specs.Seen.{log_seen};
ghost use Rattle.ml_search.specs.declared.ending.Ending.TheVariants as ending_of;
ghost use Rattle.ml_entries.specs.Entries.{AreLists, IsSessionEntry};

use crate::items::{committed, copy_of};
use crate::line_bytes::line_bytes;
use ml_desk::{Desk, Sealed};
use ml_isolation::lists::lists_stay_lists;
use ml_list_desk::{ListDesk, ListItems};
use ml_program::Loaded;
use ml_search::{Decls, Ending, EntryEnding, Script};
use ml_session::attempt_alone;
use std::alloc::{AllocError, Global};

/// Runs the session of a script over lists. The result is the block of its entry, and the lists
/// become those that it leaves, where the place of its entry is its number. Where memory is refused
/// they stay as they were.
pub fn session_block(
    alloc: Global,
    program: &Loaded,
    decls: &Decls,
    script: &Script,
    number: u32,
    items: &mut Vec<ListItems>,
) -> Result<Vec<u8>, AllocError>
    requires declared { decls.now ≡ (program_of program.now).decls }
    requires lists { AreLists decls.now number (lists_seen items.old.items) }
    ensures entry { IfOk result (λ bytes. IsSessionEntry (program_of program.now)
        (lists_seen items.old.items) (script_seen script.now) number bytes.items
        (lists_seen items.new.items)) }
    ensures lists { AreLists decls.now (suc number) (lists_seen items.new.items) }
    ensures same { OnErr result (items.new ≡ items.old) }
{
    lists_stay_lists();
    let (session, desk) = attempt(alloc, program, decls, script, number, items)?;
    let block = block_of(alloc, &session)?;
    keep_committed(alloc, session.ending(), desk, number, items)?;
    Ok(block)
}

// A desk's log is one of operations that may be asked, with replies of their kinds. It does
// nothing.
fn is_logged<D: Desk>(_desk: &D)
    ensures { is_log (D.decls _desk.now) (log_seen (D.log _desk.now)) ≡ true }
{}

// Runs the session of a script over a desk of its own, with copies of items.
fn attempt(
    alloc: Global,
    program: &Loaded,
    decls: &Decls,
    script: &Script,
    number: u32,
    items: &[ListItems],
) -> Result<(Sealed, ListDesk), AllocError>
    requires declared { decls.now ≡ (program_of program.now).decls }
    requires lists { AreLists decls.now number (lists_seen items.now) }
    ensures number { IfOk result (λ ran. ran.0.number ≡ number) }
    ensures program { IfOk result (λ ran. ran.0.program ≡ program.now.program) }
    ensures script { IfOk result (λ ran. ran.0.script ≡ script.now) }
    ensures log { IfOk result (λ ran. ran.1.log.items ≡ ran.0.log) }
    ensures decls { IfOk result (λ ran. ran.1.decls ≡ decls.now) }
    ensures items { IfOk result (λ ran. ran.1.first.value.items ≡ items.now) }
    ensures replays { IfOk result (λ ran.
        Replays decls.now (lists_seen items.now) (log_seen ran.0.log)) }
    ensures logged { IfOk result (λ ran. is_log decls.now (log_seen ran.0.log) ≡ true) }
{
    let mut desk = ListDesk::of_items(alloc, decls, copy_of(alloc, items)?)?;
    match attempt_alone(alloc, program, script, number, &mut desk) {
        Ok(session) => {
            let _log = desk.log();
            is_logged(&desk);
            Ok((session, desk))
        }
        Err(_) => Err(AllocError),
    }
}

// The block of a session: its line, and the lines that it wrote.
fn block_of(alloc: Global, session: &Sealed) -> Result<Vec<u8>, AllocError>
    ensures { IfOk result (λ bytes. bytes.items
        ≡ session_line session.now.number (ending_text session.now.ending)
        ++ flat_map (λ l. l) session.now.lines.lines) }
{
    let ending = EntryEnding::of(session.ending());
    let mut block = line_bytes(alloc, session.number(), ending)?;
    block.extend_from_slice(session.lines().bytes())?;
    Ok(block)
}

// Where a session committed, the items become those that its desk has, with the place of its entry.
fn keep_committed(
    alloc: Global,
    ending: Ending,
    desk: ListDesk,
    place: u32,
    items: &mut Vec<ListItems>,
) -> Result<(), AllocError>
    ensures committed { OnOk result (ending ≡ ending_of.Committed → lists_seen items.new.items
        ≡ commit_at place (db_after_log desk.decls (lists_seen desk.first.value.items)
        (log_seen desk.log.items) mine)) }
    ensures other { (ending ≡ ending_of.Committed → ⊥) → items.new ≡ items.old }
    ensures same { OnErr result (items.new ≡ items.old) }
{
    match ending {
        Ending::Committed => {
            let after = committed(alloc, desk.into_items()?, place)?;
            *items = after;
            Ok(())
        }
        Ending::Aborted => Ok(()),
        Ending::Refused => Ok(()),
        Ending::Failed(_) => Ok(()),
    }
}
