//! Entries of a history.
ghost use Rattle.std.specs.Prelude.{◌≡◌, []};
ghost use Rattle.ml_desk.specs.declared.sealed.Sealed.{Sealed};
ghost use Rattle.ml_search.specs.Endings.{entry_ending};
ghost use Rattle.ml_search.specs.declared.ending.EntryEnding.TheVariants as entry_ending;
ghost use Rattle.ml_writer.specs.Output.{no_output};

use crate::sealed::Sealed;
use ml_search::EntryEnding;
use ml_writer::Lines;
use std::alloc::Global;

/// An entry of a history: a session by its number, how it ended, and its lines. One that found no
/// memory has no lines. `finished`: no line is unfinished, so the bytes of the lines are those of
/// its finished ones, one after another.
#[derive(Drop)]
pub struct Entry {
    pub number: u32,
    pub ending: EntryEnding,
    pub lines: Lines,
    pub ghost finished: { lines.unfinished ≡ [] },
}

impl Entry {
    /// The entry of a session that is over. It takes no memory.
    pub fn of(session: Sealed) -> Entry
        ensures number { result.number ≡ session.number }
        ensures ending { result.ending ≡ entry_ending session.ending }
        ensures lines { result.lines ≡ session.lines }
    {
        let number = session.number();
        let ending = EntryEnding::of(session.ending());
        Entry {
            number,
            ending,
            lines: session.into_lines(),
        }
    }

    /// The entry of a session that found no memory. It takes no memory.
    pub fn out_of_memory(alloc: Global, number: u32) -> Entry
        ensures number { result.number ≡ number }
        ensures ending { result.ending ≡ entry_ending.OutOfMemory }
        ensures lines { result.lines ≡ no_output }
    {
        Entry {
            number,
            ending: EntryEnding::OutOfMemory,
            lines: Lines::new(alloc),
        }
    }
}
