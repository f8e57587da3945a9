//! The line that tells of a status.
ghost use Rattle.std.specs.Prelude.{◌≡◌, ◌++◌, ◌<◌, codes, length, IfOk};
ghost use Rattle.std.specs.String.{string_bytes};
ghost use Rattle.ml_term.specs.Decimal.{decimal_text};
ghost use Rattle.ml_run.specs.Faults.{fault_text};
ghost use Rattle.ml_run.specs.Words.{texts};
ghost use Rattle.ml_run.specs.Status.{NamesWord, fault_line, message_line};

use crate::fault::fault_text;
use crate::status::Status;
use ml_reader::ReadFault;
use ml_term::decimal_laws::std_writes_decimal_texts;
use std::alloc::{AllocError, Global};

/// The line of a status with its line feed, and no bytes for `Done`. A word is told as it stands.
pub fn line_of(alloc: Global, status: &Status, words: &[&str]) -> Result<Vec<u8>, AllocError>
    requires { NamesWord (length words.now) status.now }
    ensures { IfOk result (λ bytes. bytes.items ≡ fault_line status.now (texts words.now)) }
{
    match *status {
        Status::Done => Ok(Vec::new(alloc)),
        Status::BadWords => message_line(alloc, "bad words", ""),
        Status::NoFile(word) => message_line(alloc, "no file ", words[word]),
        Status::TooLong(word) => message_line(alloc, "too long ", words[word]),
        Status::ReadFailed(word) => message_line(alloc, "cannot read ", words[word]),
        Status::RulesRefused(fault) => rules_line(alloc, &fault),
        Status::ScriptRefused(number, fault) => script_line(alloc, number, &fault),
        Status::WriteFailed => message_line(alloc, "cannot write", ""),
        Status::OutOfMemory => message_line(alloc, "out of memory", ""),
    }
}

// The line of rules that have a fault.
fn rules_line(alloc: Global, fault: &ReadFault) -> Result<Vec<u8>, AllocError>
    ensures { IfOk result
        (λ bytes. bytes.items ≡ message_line (codes "rules ") (fault_text fault.now)) }
{
    let text = fault_text(alloc, fault)?;
    message_line(alloc, "rules ", text.as_str())
}

// The line of a script that has a fault.
fn script_line(alloc: Global, number: u32, fault: &ReadFault) -> Result<Vec<u8>, AllocError>
    ensures { IfOk result
        (λ bytes. bytes.items
        ≡ message_line (codes "script ")
        (decimal_text number ++ codes " " ++ fault_text fault.now)) }
{
    std_writes_decimal_texts();
    let text = fault_text(alloc, fault)?;
    let numbered = format!(in alloc; "{number} {text}")?;
    message_line(alloc, "script ", numbered.as_str())
}

// A fault and what it concerns, as a line.
fn message_line(alloc: Global, fault: &str, name: &str) -> Result<Vec<u8>, AllocError>
    ensures { IfOk result (λ bytes. bytes.items ≡ message_line fault.now name.now) }
{
    let mut line = Vec::new(alloc);
    line.extend_from_slice(b"megalog: ")?;
    line.extend_from_slice(fault.as_bytes())?;
    line.extend_from_slice(name.as_bytes())?;
    line.extend_from_slice(b"\n")?;
    Ok(line)
}
