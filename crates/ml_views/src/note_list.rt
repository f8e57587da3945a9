//! The notes of one key.
ghost use Rattle.std.specs.Prelude.{◌≡◌, ◌++◌, ◌∷◌, [], true, false, OnOk, OnErr};
ghost use Rattle.ml_views.specs.UndoLog.{all_but_last, flag_at};
ghost use Rattle.ml_views.specs.inside.Layout.{notes_of};

use crate::note::Note;
use std::alloc::{AllocError, Global};

/// The notes of one key, in the order in which they were made. There is at least one, and it alone
/// takes no memory.
#[derive(Drop)]
pub(crate) struct NoteList {
    pub(crate) earlier: Vec<Note>,
    pub(crate) last: Note,
}

impl NoteList {
    /// The list of one note. It takes no memory.
    pub(crate) fn of(alloc: Global, note: Note) -> NoteList
        ensures { notes_of result ≡ note ∷ [] }
    {
        NoteList {
            earlier: Vec::new(alloc),
            last: note,
        }
    }

    /// Puts a note at the end. After an error nothing has changed.
    pub(crate) fn push(&mut self, note: Note) -> Result<(), AllocError>
        ensures ok { OnOk result (notes_of self.new ≡ notes_of self.old ++ note ∷ []) }
        ensures err { OnErr result (notes_of self.new ≡ notes_of self.old) }
    {
        self.earlier.push(self.last)?;
        self.last = note;
        Ok(())
    }

    /// Takes the last note away where there are others, and says whether it did.
    pub(crate) fn pop(&mut self) -> bool
        ensures taken { result ≡ true → notes_of self.new ≡ all_but_last (notes_of self.old) }
        ensures alone { result ≡ false → all_but_last (notes_of self.old) ≡ [] }
    {
        match self.earlier.pop() {
            Some(note) => {
                self.last = note;
                true
            }
            None => false,
        }
    }

    /// Whether the item is there for who sees what was done before a stamp: by the last note with a
    /// smaller stamp, and as it was committed where there is none.
    pub(crate) fn visible(&self, stamp: usize, committed: bool) -> bool
        ensures { result ≡ flag_at stamp committed (notes_of self.now) }
    {
        if self.last.stamp < stamp {
            return self.last.present;
        }
        flag_before(&self.earlier, stamp, committed)
    }
}

// The same among some notes.
fn flag_before(notes: &[Note], stamp: usize, committed: bool) -> bool
    ensures { result ≡ flag_at stamp committed notes.now }
{
    let mut left = notes.len();
    while left > 0 {
        left -= 1;
        let note = notes[left];
        if note.stamp < stamp {
            return note.present;
        }
    }
    committed
}
