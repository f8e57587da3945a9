//! The line of an entry, as bytes.
ghost use Rattle.std.specs.Prelude.{◌≡◌, IfOk};
ghost use Rattle.ml_search.specs.Printed.{entry_text, session_line};

use ml_search::EntryEnding;
use ml_writer::session_line;
use std::alloc::{AllocError, Global};

/// The line of an entry.
pub fn line_bytes(alloc: Global, number: u32, ending: EntryEnding) -> Result<Vec<u8>, AllocError>
    ensures { IfOk result (λ bytes. bytes.items ≡ session_line number (entry_text ending)) }
{
    let line = session_line(alloc, number, ending)?;
    Vec::from_slice(alloc, line.as_bytes())
}
