//! Scripts: a budget, goals and an end, each of them a clause.
pub mod draft;
pub mod item;

ghost use Rattle.std.specs.Prelude.{◌≡◌, ◌≤◌, ◌<◌, ◌^◌, ◌⊎◌, Err, IfOk, List, MatchResult, Ok};
ghost use Rattle.std.specs.Prelude.{length, map};
ghost use Rattle.std.specs.List.{AllByRecursion};
ghost use Rattle.ml_search.specs.Limits.{max_goals};
ghost use Rattle.ml_search.specs.Program.{Script as ScriptOf};
ghost use Rattle.ml_search.specs.ProgramSeen.{script_seen};
ghost use Rattle.ml_reader.specs.inside.script.ScriptItems.{no_clauses, run_clauses};
ghost use Rattle.ml_reader.specs.inside.script.ScriptSeen.{IsRun};
ghost use Rattle.ml_reader.specs.ScriptTexts.{IsScript, HasScriptFault};
ghost use Rattle.ml_reader.specs.Seen.{read_seen};
ghost use Rattle.ml_reader.specs.Texts.{IsWellRead};
ghost use Rattle.ml_reader.specs.declared.fault.ReadFault.{ReadFault};
ghost use Rattle.ml_reader.specs.declared.fault.ReadStop.TheVariants as read_stop;

use crate::clauses::read_clauses;
use crate::fault::ReadStop;
use crate::parser::lexeme::Read;
use crate::script::draft::{Draft, add_item, script_from};
use crate::script::item::item_of;
use ml_search::Script;
use std::alloc::Global;

// The script of a text's clauses, or the first of them with which no script goes on.
fn script_of(alloc: Global, clauses: Vec<Read>) -> Result<Script, ReadStop>
    requires well_read { AllByRecursion IsWellRead (map read_seen clauses.items) }
    requires few { length clauses.items ≤ max_goals }
    ensures { IsRun (run_clauses no_clauses (map read_seen clauses.items)) result }
{
    let mut draft = Draft::NoClauses;
    for clause in clauses {
        let place = clause.place;
        draft = add_item(alloc, draft, item_of(clause), place)?;
    }
    Ok(script_from(alloc, draft))
}

/// The script of a text: at most one `:- budget(N).` with N from 1 to 200,000, then any number of
/// `?- GOAL.` with callable goals, and last at most one of `:- abort.` and
/// `:- commit_unless(GOAL).` with a callable goal. Where no budget stands it is 20,000.
///
/// A text has at most one script, and exactly where it has none it has a first fault. Where it is
/// no text of clauses, that is its first fault as such, also where it stands behind a clause that
/// no script has. Else it is `BadScriptItem` at the first token of the first clause with which no
/// script goes on. Want of memory may come in place of every answer.
pub fn read_script(alloc: Global, bytes: &[u8]) -> Result<Script, ReadStop>
    requires { length bytes.now < 2 ^ 32 }
    ensures read { IfOk result (λ script. IsScript bytes.now (script_seen script)) }
    ensures fault { (f : ReadFault) → result ≡ Err (read_stop.Fault f)
        → HasScriptFault bytes.now f }
    ensures complete { (s : ScriptOf) → IsScript bytes.now s
        → MatchResult result (λ script. script_seen script ≡ s)
        (λ stop. stop ≡ read_stop.OutOfMemory) }
    ensures first { (f : ReadFault) → HasScriptFault bytes.now f
        → (result ≡ Err (read_stop.Fault f)) ⊎ (result ≡ Err read_stop.OutOfMemory) }
{
    let clauses = read_clauses(alloc, bytes)?;
    script_of(alloc, clauses)
}
