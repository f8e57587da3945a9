//! The notes of one file.
ghost use Rattle.std.specs.Prelude.{◌≡◌, ◌≢◌, ◌++◌, ◌∷◌, [], OnOk, OnErr, IsTrue, ◌↔◌};
ghost use Rattle.std.specs.Prelude.{IfNone, IfSome, Some};
ghost use Rattle.std.specs.FinMap as map;
ghost use Rattle.ml_views.specs.UndoLog.{all_but_last, flag_at, notes_at, with_notes};
ghost use Rattle.ml_views.specs.UndoLog.{last_note};
ghost use Rattle.ml_views.specs.inside.Layout.{IsFirstKey};

use crate::note::Note;
use crate::note_list::NoteList;
use ml_bits::Bits;
use std::alloc::{AllocError, Global};
use std::collections::BTreeMap;
use std::marker::Model;

/// The notes of the keys of one file.
#[derive(Drop)]
pub(crate) struct FileNotes {
    keys: BTreeMap<Bits, NoteList>,
}

impl Model for FileNotes {
    ghost use Rattle.std.specs.Coded.{coded_bool, coded_list};
    ghost use Rattle.std.specs.FinMap as map;
    ghost use Rattle.ml_views.specs.contracts.note.Note as note;
    ghost use Rattle.ml_views.specs.inside.Layout.{FileLog, file_log};

    ghost Value = { FileLog };

    ghost coded = { map.code (coded_list coded_bool) (coded_list note.the_row.coded) };

    ghost view = { λ f. file_log f.keys.entries };
}

impl FileNotes {
    /// No notes. It takes no memory.
    pub(crate) fn new(alloc: Global) -> FileNotes
        ensures { result ≡ map.empty }
    {
        FileNotes {
            keys: BTreeMap::new(alloc),
        }
    }

    /// Whether there is no note.
    pub(crate) fn is_empty(&self) -> bool
        ensures { IsTrue result ↔ (self.now ≡ map.empty) }
    {
        self.keys.is_empty()
    }

    /// Puts a note at the end of a key's notes. After an error nothing has changed.
    pub(crate) fn note(&mut self, alloc: Global, key: &Bits, note: Note) -> Result<(), AllocError>
        ensures ok { OnOk result (self.new ≡ with_notes self.old key.now.bits
            (notes_at self.old key.now.bits ++ note ∷ [])) }
        ensures err { OnErr result (self.new ≡ self.old) }
    {
        if let Some(notes) = self.keys.get_mut(key) {
            return notes.push(note);
        }
        let copy = key.copy_of()?;
        self.keys.insert(copy, NoteList::of(alloc, note))?;
        Ok(())
    }

    /// Takes the last note of a key away. It takes no memory.
    pub(crate) fn unnote(&mut self, key: &Bits)
        requires { notes_at self.old key.now.bits ≢ [] }
        ensures { self.new ≡ with_notes self.old key.now.bits
            (all_but_last (notes_at self.old key.now.bits)) }
    {
        if let Some(notes) = self.keys.get_mut(key) {
            if !notes.pop() {
                self.keys.remove(key);
            }
        }
    }

    /// Whether the item under a key is there for who sees what was done before a stamp, where it is
    /// committed or not.
    pub(crate) fn visible(&self, key: &Bits, stamp: usize, committed: bool) -> bool
        ensures { result ≡ flag_at stamp committed (notes_at self.now key.now.bits) }
    {
        match self.keys.get(key) {
            Some(notes) => notes.visible(stamp, committed),
            None => committed,
        }
    }

    /// Takes the least key out, with its notes, and gives it with the last of them. It takes no
    /// memory.
    pub(crate) fn take_first(&mut self) -> Option<(Bits, Note)>
        ensures none { IfNone result (self.old ≡ map.empty) }
        ensures first { IfSome result (λ taken. IsFirstKey self.old taken.0.bits) }
        ensures note { IfSome result (λ taken.
            last_note (notes_at self.old taken.0.bits) ≡ Some taken.1) }
        ensures rest { IfSome result (λ taken. self.new ≡ with_notes self.old taken.0.bits []) }
    {
        let (key, notes) = self.keys.pop_first()?;
        Some((key, notes.last))
    }
}
