//! Notes and cursors, and what crosses threads.

use crate::{Cursor, Cursors, Note, Noted, Undo};
use ml_bits::Bits;
use ml_term::Term;
use std::test::Fail;

/// Whether threads may hand on and share values of a type.
fn crosses_threads<T: Send + Sync>() {}

#[test]
fn undo_logs_and_cursors_cross_threads() {
    crosses_threads::<Undo>();
    crosses_threads::<Note>();
    crosses_threads::<Noted>();
    crosses_threads::<Cursors>();
    crosses_threads::<Cursor>();
}

#[test]
fn a_note_is_seen_behind_its_stamp(rt: HostRuntime) -> Result<(), Fail> {
    let key = Bits::from_bytes(rt.alloc(), b"a", 8)?;
    let mut undo = Undo::new(rt.alloc());
    undo.note(1, &key, 3, false)?;
    assert!(rt; undo.visible(1, &key, 3, true));
    assert!(rt; !undo.visible(1, &key, 4, true));
    assert!(rt; undo.visible(0, &key, 4, true));
    Ok(())
}

#[test]
fn the_last_note_is_handed_out(rt: HostRuntime) -> Result<(), Fail> {
    let key = Bits::from_bytes(rt.alloc(), b"a", 8)?;
    let mut undo = Undo::new(rt.alloc());
    undo.note(2, &key, 0, false)?;
    undo.note(2, &key, 5, true)?;
    let taken = undo.take_first().ok_or("nothing noted")?;
    assert_eq!(rt; taken.pred, 2);
    assert!(rt; taken.key == key);
    assert_eq!(rt; taken.stamp, 5);
    assert!(rt; taken.present);
    assert!(rt; undo.is_empty());
    Ok(())
}

#[test]
fn a_note_that_is_taken_back_is_gone(rt: HostRuntime) -> Result<(), Fail> {
    let key = Bits::from_bytes(rt.alloc(), b"a", 8)?;
    let mut undo = Undo::new(rt.alloc());
    undo.note(0, &key, 0, true)?;
    undo.unnote(0, &key);
    assert!(rt; undo.is_empty());
    Ok(())
}

#[test]
fn a_cursor_keeps_its_last_key(rt: HostRuntime) -> Result<(), Fail> {
    let mut cursors = Cursors::new(rt.alloc());
    assert_eq!(rt; cursors.start(3, Term::Int(7), 4)?, 0);
    cursors.advance(0, Bits::from_bytes(rt.alloc(), b"a", 8)?);
    assert_eq!(rt; cursors.last_key(0).map(|key| key.len()), Some(8));
    assert_eq!(rt; cursors.pred_of(0), 3);
    assert_eq!(rt; cursors.stamp_of(0), 4);
    Ok(())
}
