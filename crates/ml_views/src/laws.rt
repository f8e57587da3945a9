//! Laws of undo logs. The functions do nothing: their contracts are the laws.
ghost use Rattle.std.specs.Prelude.{◌≡◌, ◌≢◌, ◌++◌, [], ◌∷◌};
ghost use Rattle.std.specs.FinMap as map;
ghost use Rattle.ml_views.specs.UndoLog.{HasNotesAtEachKey, FileKey, UndoLog, notes_at, with_note};
ghost use Rattle.ml_views.specs.UndoLog.{without_last_note};
ghost use Rattle.ml_views.specs.declared.note.Note.{Note};

/// A note that is taken back leaves the log as it was.
pub fn a_note_is_taken_back()
    ensures { (log : UndoLog) (item : FileKey) (note : Note) → HasNotesAtEachKey log →
        without_last_note (with_note log item note) item ≡ log }
{}

/// What one more note changes: the notes of its item, and no others.
/// `there`: the item's notes are those before and the new one. `others`: what is noted of any other
/// item stays.
pub fn a_note_is_of_one_item()
    ensures there { (log : UndoLog) (item : FileKey) (note : Note) →
        notes_at (with_note log item note) item ≡ notes_at log item ++ note ∷ [] }
    ensures others { (log : UndoLog) (item other : FileKey) (note : Note) → other ≢ item →
        map.get (with_note log item note) other ≡ map.get log other }
{}
