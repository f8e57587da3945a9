//! The undo log.
ghost use Rattle.std.specs.Prelude.{◌≡◌, ◌≢◌, ◌+◌, ◌<◌, ◌≤◌, ◌↔◌, [], max, length, Some};
ghost use Rattle.std.specs.Prelude.{OnOk, OnErr, IfNone, IfSome, MatchOption, IsTrue};
ghost use Rattle.std.specs.FinMap as map;
ghost use Rattle.ml_views.specs.UndoLog.{HasNotesAtEachKey, IsFirstNoted, flag_at, last_note};
ghost use Rattle.ml_views.specs.UndoLog.{notes_at, with_note, without_last_note};
ghost use Rattle.ml_views.specs.inside.Layout.{IsFirstFile, undo_log};

use crate::file_notes::FileNotes;
use crate::note::{Note, Noted};
use ml_bits::{Bits, OutOfMemory};
use std::alloc::Global;
use std::marker::Model;

/// What a live session did to the items of the store: for each declaration and key the notes of its
/// changes. Contracts see a finite map from declarations and keys to lists of notes.
#[derive(Drop)]
pub struct Undo {
    files: Vec<FileNotes>,
}

impl Model for Undo {
    ghost use Rattle.std.specs.Coded.{coded_bool, coded_list, coded_ℕ, coded×};
    ghost use Rattle.std.specs.FinMap as map;
    ghost use Rattle.ml_views.specs.UndoLog.{UndoLog};
    ghost use Rattle.ml_views.specs.contracts.note.Note as note;
    ghost use Rattle.ml_views.specs.inside.Layout.{AreFiles, undo_log};

    ghost Value = { UndoLog };

    ghost coded = { map.code (coded× coded_ℕ (coded_list coded_bool))
        (coded_list note.the_row.coded) };

    ghost view = { λ u. undo_log u.files.items };

    ghost invariant = { λ u. AreFiles u.files.items };
}

impl Undo {
    /// A log without notes. It takes no memory.
    pub fn new(alloc: Global) -> Undo
        ensures { result ≡ map.empty }
    {
        Undo {
            files: Vec::new(alloc),
        }
    }

    /// Whether no item is noted. `noted`: an item that is in the log has a note.
    pub fn is_empty(&self) -> bool
        ensures empty { IsTrue result ↔ (self.now ≡ map.empty) }
        ensures noted { HasNotesAtEachKey self.now }
    {
        first_noted(&self.files).is_none()
    }

    /// Notes, behind all that is noted of it, what was done to the item under a key in the file of
    /// a declaration: by the operation of this stamp, after which it is there or not. After an
    /// error nothing has changed. `noted`: an item that was in the log had a note, so
    /// `laws::a_note_is_taken_back` says that `unnote` leads back.
    pub fn note(
        &mut self,
        pred: u32,
        key: &Bits,
        stamp: usize,
        present: bool,
    ) -> Result<(), OutOfMemory>
        ensures ok { OnOk result (self.new ≡ with_note self.old (pred, key.now.bits)
            (record { stamp = stamp; present = present })) }
        ensures err { OnErr result (self.new ≡ self.old) }
        ensures noted { HasNotesAtEachKey self.old }
    {
        let alloc = *self.files.allocator();
        let at = pred as usize;
        add_files(&mut self.files, at)?;
        self.files[at].note(alloc, key, Note { stamp, present })
    }

    /// Takes the last note of an item away, and the item out of the log where it has no other. It
    /// takes no memory.
    pub fn unnote(&mut self, pred: u32, key: &Bits)
        requires { notes_at self.old (pred, key.now.bits) ≢ [] }
        ensures { self.new ≡ without_last_note self.old (pred, key.now.bits) }
    {
        self.files[pred as usize].unnote(key);
    }

    /// Whether an item is there for who sees what the session did before a stamp: by the last note
    /// with a smaller stamp, and as it is committed where there is none.
    pub fn visible(&self, pred: u32, key: &Bits, stamp: usize, committed: bool) -> bool
        ensures { result ≡ flag_at stamp committed (notes_at self.now (pred, key.now.bits)) }
    {
        match self.files.get(pred as usize) {
            Some(file) => file.visible(key, stamp, committed),
            None => committed,
        }
    }

    /// Takes the first noted item out of the log, by declaration and then by key, and gives it with
    /// the last of its notes; `None` exactly where no item is noted. It takes no memory.
    pub fn take_first(&mut self) -> Option<Noted>
        ensures none { IfNone result (self.old ≡ map.empty) }
        ensures first { IfSome result (λ taken.
            IsFirstNoted self.old (taken.pred, taken.key.bits)) }
        ensures note { IfSome result (λ taken.
            last_note (notes_at self.old (taken.pred, taken.key.bits))
            ≡ Some (record { stamp = taken.stamp; present = taken.present })) }
        ensures rest { MatchOption result (self.new ≡ self.old) (λ taken.
            self.new ≡ map.remove self.old (taken.pred, taken.key.bits)) }
    {
        let at = first_noted(&self.files)?;
        match self.files[at].take_first() {
            Some((key, note)) => Some(Noted {
                pred: at as u32,
                key,
                stamp: note.stamp,
                present: note.present,
            }),
            None => unreachable!(),
        }
    }

    /// Forgets all notes. It takes no memory.
    pub fn clear(&mut self)
        ensures { self.new ≡ map.empty }
    {
        self.files.clear();
    }
}

// Files without notes, up to one place. After an error there may be some of them.
fn add_files(files: &mut Vec<FileNotes>, at: usize) -> Result<(), OutOfMemory>
    ensures within { OnOk result (at < length files.new.items) }
    ensures same { undo_log files.new.items ≡ undo_log files.old.items }
    ensures few { length files.new.items ≤ max (length files.old.items) (at + 1) }
{
    let alloc = *files.allocator();
    while files.len() <= at {
        files.push(FileNotes::new(alloc))?;
    }
    Ok(())
}

// The first file with notes.
fn first_noted(files: &[FileNotes]) -> Option<usize>
    ensures { MatchOption result (undo_log files.now ≡ map.empty) (IsFirstFile files.now) }
{
    for (at, file) in files.iter().enumerate() {
        if !file.is_empty() {
            return Some(at);
        }
    }
    None
}
