//! Sessions that are over.
ghost use Rattle.std.specs.Prelude.{◌≡◌, []};
ghost use Rattle.ml_desk.specs.Sealing.{IsSealed};
ghost use Rattle.ml_search.specs.ProgramSeen.{program_seen, script_seen};
ghost use Rattle.ml_search.specs.Seen.{log_seen};

use ml_search::{Ending, Log, Program, Script};
use ml_writer::Lines;
use std::marker::Model;
use std::snapshot::Snapshot;

/// A session that is over: its number, its lines, how it ended, and what it asked with the replies.
/// With it contracts see the program and the script that it was made from. Its type keeps what they
/// mean: over all lists that give the log's replies the session of the script has these lines and
/// this ending, and where it committed, its changes are those that the log tells of.
#[derive(Drop)]
pub struct Sealed {
    number: u32,
    lines: Lines,
    ending: Ending,
    log: Log,
    program: Snapshot<Snapshot<Program>>,
    script: Snapshot<Script>,
}

impl Model for Sealed {
    ghost use Rattle.std.specs.Coded.{codes};
    ghost use Rattle.ml_desk.specs.SealedSession.{SealedSession};
    ghost use Rattle.ml_search.specs.contracts.operation.Op as operation;
    ghost use Rattle.ml_search.specs.contracts.operation.Reply as answer;
    ghost use Rattle.ml_search.specs.contracts.program.Program as rules;
    ghost use Rattle.ml_search.specs.contracts.script.Script as goals;

    ghost Value = { SealedSession };

    ghost coded = { Prim.hlevel (
      codes,
      operation.the_row.coded,
      answer.the_row.coded,
      rules.the_row.coded,
      goals.the_row.coded,
    ) };

    ghost use Rattle.ml_desk.specs.Sealing.{IsSessionSealed};

    ghost view = { λ s. record {
      number = s.number;
      lines = s.lines;
      ending = s.ending;
      log = s.log;
      program = s.program.value.value;
      script = s.script.value;
    } };

    ghost invariant = { λ s. IsSessionSealed s.program.value.value s.script.value s.log s.lines
        s.ending };
}

impl Sealed {
    /// The session of a script that ended like this, with these lines and this log. It takes no
    /// memory.
    pub fn new(
        number: u32,
        lines: Lines,
        ending: Ending,
        log: Log,
        program: &Snapshot<Program>,
        script: &Script,
    ) -> Sealed
        requires finished { lines.unfinished ≡ [] }
        requires meant { IsSealed (program_seen program.now.value) (script_seen script.now)
            (log_seen log) lines.lines ending }
        ensures { result ≡ record {
          number = number;
          lines = lines;
          ending = ending;
          log = log;
          program = program.now.value;
          script = script.now;
        } }
    {
        Sealed {
            number,
            lines,
            ending,
            log,
            program: Snapshot::of(program),
            script: Snapshot::of(script),
        }
    }

    /// The session's number.
    pub fn number(&self) -> u32
        ensures { result ≡ self.now.number }
    {
        self.number
    }

    /// How it ended, and what is known of it.
    pub fn ending(&self) -> Ending
        ensures same { result ≡ self.now.ending }
        ensures finished { self.now.lines.unfinished ≡ [] }
        ensures meant { IsSealed (program_seen self.now.program) (script_seen self.now.script)
            (log_seen self.now.log) self.now.lines.lines self.now.ending }
    {
        self.ending
    }

    /// Its lines.
    pub fn lines(&self) -> &Lines
        ensures { result.now ≡ self.now.lines }
    {
        &self.lines
    }

    /// What it asked, with the replies.
    pub fn log(&self) -> &Log
        ensures { result.now ≡ self.now.log }
    {
        &self.log
    }

    /// Its lines. It takes no memory.
    pub fn into_lines(self) -> Lines
        ensures { result ≡ self.lines }
    {
        let Sealed {
            number: _,
            lines,
            ending: _,
            log: _,
            program: _,
            script: _,
        } = self;
        lines
    }
}
