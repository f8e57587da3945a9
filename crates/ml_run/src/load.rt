//! Fetches and reads the texts that the words name.
ghost use Rattle.std.specs.Prelude.{◌≡◌, ◌≤◌, ◌+◌, false, IsTrue, IfOk, IfErr, IfSome, Ok, Err};
ghost use Rattle.std.specs.Prelude.{length};
ghost use Rattle.ml_search.specs.ProgramSeen.{script_seen};
ghost use Rattle.ml_run.specs.Limits.{max_scripts, max_text_bytes};
ghost use Rattle.ml_run.specs.Words.{texts};
ghost use Rattle.ml_run.specs.Texts.{HoldsText};
ghost use Rattle.ml_run.specs.Outcomes.{inputs, RulesCome, ScriptComes, ScriptsCome};
ghost use Rattle.ml_run.specs.Outcomes.{FilesLead};
ghost use Rattle.ml_run.specs.inside.StepCauses.{FetchStops, Stops, ScriptsStop, FilesStop};
ghost use Rattle.ml_run.specs.inside.Seen.{rules_seen, scripts_seen};

use crate::inputs::Inputs;
use crate::limits::MAX_TEXT_BYTES;
use crate::status::Status;
use ml_outside::{FetchStop, Shelf};
use ml_reader::{ReadStop, Rules, read_rules, read_script};
use ml_search::Script;
use std::alloc::Global;

/// The rules and the scripts under these names: word 1 names the rules, and word 1 + k script k.
pub fn load<S: Shelf>(
    alloc: Global,
    shelf: &mut S,
    rules_file: &str,
    script_files: &[&str],
) -> Result<Inputs, Status>
    requires { length script_files.now ≤ max_scripts }
    ensures ok { IfOk result
        (λ i. IfSome (S.held shelf.old)
        (λ files. FilesLead files rules_file.now (texts script_files.now)
        (inputs (rules_seen i.rules).0 (rules_seen i.rules).1 (scripts_seen i.scripts.items)))) }
    ensures err { IfErr result
        (λ status. FilesStop (S.held shelf.old) rules_file.now (texts script_files.now)
        (S.faults shelf.old) (S.faults shelf.new) status) }
    ensures held { S.held shelf.new ≡ S.held shelf.old }
{
    let rules = load_rules(alloc, shelf, rules_file)?;
    let scripts = load_scripts(alloc, shelf, script_files)?;
    Ok(Inputs { rules, scripts })
}

// The rules under a name, which word 1 gives.
fn load_rules<S: Shelf>(alloc: Global, shelf: &mut S, file: &str) -> Result<Rules, Status>
    ensures ok { IfOk result
        (λ r. IfSome (S.held shelf.old) (λ files. RulesCome files file.now (Ok (rules_seen r)))) }
    ensures err { IfErr result
        (λ status. Stops (S.held shelf.old)
        (λ files status. RulesCome files file.now (Err status)) 1 (S.faults shelf.old)
        (S.faults shelf.new) status) }
    ensures held { S.held shelf.new ≡ S.held shelf.old }
    ensures later { S.faults shelf.old ≤ S.faults shelf.new }
{
    let bytes = fetch_text(alloc, shelf, file, 1)?;
    match read_rules(alloc, &bytes) {
        Ok(rules) => Ok(rules),
        Err(ReadStop::Fault(fault)) => Err(Status::RulesRefused(fault)),
        Err(ReadStop::OutOfMemory) => Err(Status::OutOfMemory),
    }
}

// The scripts under these names.
fn load_scripts<S: Shelf>(
    alloc: Global,
    shelf: &mut S,
    names: &[&str],
) -> Result<Vec<Script>, Status>
    requires { length names.now ≤ max_scripts }
    ensures ok { IfOk result
        (λ ss. IfSome (S.held shelf.old)
        (λ files. ScriptsCome files 1 (texts names.now) (Ok (scripts_seen ss.items)))) }
    ensures few { IfOk result (λ ss. length ss.items ≤ max_scripts) }
    ensures err { IfErr result
        (λ status. ScriptsStop (S.held shelf.old) (texts names.now) (S.faults shelf.old)
        (S.faults shelf.new) status) }
    ensures held { S.held shelf.new ≡ S.held shelf.old }
    ensures later { S.faults shelf.old ≤ S.faults shelf.new }
{
    let mut scripts = Vec::new(alloc);
    for i in 0..names.len() {
        let script = load_script(alloc, shelf, names[i], i as u32 + 1)?;
        scripts.push(script)?;
    }
    Ok(scripts)
}

// Script k under a name, which word 1 + k gives.
fn load_script<S: Shelf>(
    alloc: Global,
    shelf: &mut S,
    name: &str,
    number: u32,
) -> Result<Script, Status>
    requires some { 1 ≤ number }
    requires few { number ≤ max_scripts }
    ensures ok { IfOk result
        (λ s. IfSome (S.held shelf.old)
        (λ files. ScriptComes files number name.now (Ok (script_seen s)))) }
    ensures err { IfErr result
        (λ status. Stops (S.held shelf.old)
        (λ files status. ScriptComes files number name.now (Err status))
        (1 + number) (S.faults shelf.old) (S.faults shelf.new) status) }
    ensures held { S.held shelf.new ≡ S.held shelf.old }
    ensures later { S.faults shelf.old ≤ S.faults shelf.new }
{
    let word = 1 + number as usize;
    let bytes = fetch_text(alloc, shelf, name, word)?;
    match read_script(alloc, &bytes) {
        Ok(script) => Ok(script),
        Err(ReadStop::Fault(fault)) => Err(Status::ScriptRefused(number, fault)),
        Err(ReadStop::OutOfMemory) => Err(Status::OutOfMemory),
    }
}

// The text under a name, which a word gives.
fn fetch_text<S: Shelf>(
    alloc: Global,
    shelf: &mut S,
    name: &str,
    word: usize,
) -> Result<Vec<u8>, Status>
    ensures ok { IfOk result
        (λ bytes. IfSome (S.held shelf.old) (λ files. HoldsText files name.now bytes.items)) }
    ensures limit { IfOk result (λ bytes. length bytes.items ≤ max_text_bytes) }
    ensures err { IfErr result
        (λ status. FetchStops (S.held shelf.old) name.now word (S.faults shelf.old)
        (S.faults shelf.new) status) }
    ensures held { S.held shelf.new ≡ S.held shelf.old }
    ensures later { S.faults shelf.old ≤ S.faults shelf.new }
{
    match shelf.fetch(alloc, name, MAX_TEXT_BYTES) {
        Ok(bytes) => Ok(bytes),
        Err(FetchStop::Absent) => Err(Status::NoFile(word)),
        Err(FetchStop::TooLong) => Err(Status::TooLong(word)),
        Err(FetchStop::Failed) => Err(Status::ReadFailed(word)),
        Err(FetchStop::OutOfMemory) => Err(Status::OutOfMemory),
    }
}
