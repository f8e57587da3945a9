//! Copies of deaths, and values that cross threads.

use crate::{Death, DeskStop, Entry, History, Mode, Sealed, Stepped};
use ml_bits::Bits;
use ml_search::EntryEnding;
use std::test::Fail;

/// Whether threads may hand on and share values of a type.
fn crosses_threads<T: Send + Sync>() {}

#[test]
fn all_words_cross_threads() {
    crosses_threads::<Mode>();
    crosses_threads::<Death>();
    crosses_threads::<DeskStop>();
    crosses_threads::<Stepped>();
    crosses_threads::<Entry>();
    crosses_threads::<History>();
    crosses_threads::<Sealed>();
}

#[test]
fn a_death_is_copied(rt: HostRuntime) -> Result<(), Fail> {
    let death = Death {
        session: 2,
        holder: 1,
        pred: 3,
        unit: Bits::from_bytes(rt.alloc(), b"a", 5)?,
        mode: Mode::X,
    };
    let copy = death.copy_of()?;
    assert_eq!(rt; copy.session, 2);
    assert_eq!(rt; copy.holder, 1);
    assert_eq!(rt; copy.pred, 3);
    assert_eq!(rt; copy.unit.len(), 5);
    assert!(rt; copy.unit == death.unit);
    assert!(rt; copy.mode == Mode::X);
    Ok(())
}

#[test]
fn a_session_without_memory_has_no_lines(rt: HostRuntime) -> Result<(), Fail> {
    let mut entries = Vec::new(rt.alloc());
    entries.push(Entry::out_of_memory(rt.alloc(), 3))?;
    let history = History::from_vec(entries);
    assert_eq!(rt; history.as_slice().len(), 1);
    let entry = &history.as_slice()[0];
    assert_eq!(rt; entry.number, 3);
    assert!(rt; matches!(entry.ending, EntryEnding::OutOfMemory));
    assert!(rt; entry.lines.bytes().is_empty());
    Ok(())
}
