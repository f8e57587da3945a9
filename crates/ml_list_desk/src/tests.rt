//! Items that are copied, and what crosses threads.

use crate::{ListDesk, ListItem, ListItems, Place};
use ml_term::Term;
use std::test::Fail;

/// Whether threads may hand on and share values of a type.
fn crosses_threads<T: Send + Sync>() {}

#[test]
fn desks_and_items_cross_threads() {
    crosses_threads::<ListDesk>();
    crosses_threads::<ListItems>();
}

#[test]
fn items_are_copied(rt: HostRuntime) -> Result<(), Fail> {
    let mut held = Vec::new(rt.alloc());
    held.push(ListItem {
        place: Place::At(3),
        change: 2,
        term: Term::Int(7),
    })?;
    let items = ListItems::from_vec(held);
    let copy = items.copy_of(rt.alloc())?;
    assert_eq!(rt; copy.as_slice().len(), 1);
    let copied = copy.into_vec();
    assert_eq!(rt; copied.len(), 1);
    assert!(rt; copied[0].place == Place::At(3));
    assert_eq!(rt; copied[0].change, 2);
    Ok(())
}
