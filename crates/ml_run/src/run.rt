//! The public call: the words, the texts, the sessions, and their print.
ghost use Rattle.std.specs.Prelude.{◌≡◌, ◌↔◌, length, IfSome};
ghost use Rattle.ml_outside.specs.Written.{Appended};
ghost use Rattle.ml_run.specs.Words.{texts, AreBad};
ghost use Rattle.ml_run.specs.Status.{NamesWord};
ghost use Rattle.ml_run.specs.Causes.{counts_of, IsCaused, IsQuiet, TellsOutcome};
ghost use Rattle.ml_run.specs.Prints.{Prints, IsBeginning};

use crate::load::load;
use crate::run_and_print::run_and_print;
use crate::status::Status;
use crate::words::names_of;
use ml_outside::{Shelf, Sink};
use ml_reader::grammar_laws::{a_text_has_one_first_fault, a_text_that_is_read_has_no_fault};
use std::alloc::Global;

/// Runs the sessions of the scripts that the words `serial RULES SCRIPT*` name, at most
/// `MAX_SCRIPTS`, one after another over the relations of the rules that they name, and then prints
/// each by one write. The shelf is only read.
pub fn serial<S: Shelf, K: Sink>(
    alloc: Global,
    words: &[&str],
    shelf: &mut S,
    out: &mut K,
) -> Status
    // What was appended is the printed history of what the shelf held.
    ensures done { result ≡ Status.Done → IfSome (S.held shelf.old)
        (λ files. Prints files (texts words.now)
        (Appended (K.written out.old) (K.written out.new))) }

    // After a refusal nothing was appended, after want of memory a beginning of such a print or
    // nothing, and else a beginning of it.
    ensures beginning { IsBeginning (S.held shelf.old) (texts words.now)
        (K.written out.old) (K.written out.new) result }
    ensures held { S.held shelf.new ≡ S.held shelf.old }

    // Each status comes only for its cause.
    ensures cause { let counts = counts_of (S.faults shelf.old) (S.faults shelf.new)
        (K.faults out.old) (K.faults out.new) in
        IsCaused (S.held shelf.old) (texts words.now) counts result }
    ensures bad_words { (result ≡ Status.BadWords) ↔ AreBad (texts words.now) }
    ensures names { NamesWord (length words.now) result }

    // Where no fault is counted, the first refusal is told, and where there is none, all is done,
    // unless memory is refused.
    ensures complete { let counts = counts_of (S.faults shelf.old) (S.faults shelf.new)
        (K.faults out.old) (K.faults out.new) in
        IsQuiet counts → IfSome (S.held shelf.old)
        (λ files. TellsOutcome files (texts words.now) result) }
{
    a_text_has_one_first_fault();
    a_text_that_is_read_has_no_fault();
    let Some((rules, scripts)) = names_of(words) else {
        return Status::BadWords;
    };
    let inputs = match load(alloc, shelf, rules, scripts) {
        Ok(inputs) => inputs,
        Err(status) => return status,
    };
    match run_and_print(alloc, inputs, out) {
        Ok(()) => Status::Done,
        Err(status) => status,
    }
}
