//! The line of an entry of a history.
ghost use Rattle.std.specs.Prelude.{◌≡◌, ◌++◌, IfOk, codes};
ghost use Rattle.std.specs.String.{string_bytes};
ghost use Rattle.ml_search.specs.Printed.{entry_text, session_line};
ghost use Rattle.ml_term.specs.Decimal.{decimal_text};

use ml_search::EntryEnding;
use ml_term::decimal_laws::std_writes_decimal_texts;
use std::alloc::{AllocError, Global};

/// `session K ENDING` with its line feed.
pub fn session_line(alloc: Global, number: u32, ending: EntryEnding) -> Result<String, AllocError>
    ensures { IfOk result (λ line. string_bytes line ≡ session_line number (entry_text ending)) }
{
    std_writes_decimal_texts();
    match ending {
        EntryEnding::Committed => format!(in alloc; "session {number} committed\n"),
        EntryEnding::Aborted => format!(in alloc; "session {number} aborted\n"),
        EntryEnding::Refused => format!(in alloc; "session {number} refused\n"),
        EntryEnding::Failed(j) => failed_line(alloc, number, j),
        EntryEnding::OutOfMemory => format!(in alloc; "session {number} out of memory\n"),
    }
}

// The line of an entry whose session failed at its goal j.
fn failed_line(alloc: Global, number: u32, j: u32) -> Result<String, AllocError>
    ensures { IfOk result (λ line. string_bytes line
        ≡ session_line number (codes "failed at goal " ++ decimal_text j)) }
{
    std_writes_decimal_texts();
    let line = format!(in alloc; "session {number} failed at goal {j}\n")?;
    Ok(line)
}
