//! What the desk replies to operations on one relation.
use crate::asked::{Asked, Step, Told};
use ml_search::MAX_CHANGES;
use std::alloc::Global;
use std::process::Abort;
use std::test::Fail;

// A cursor gives the tuples of its opening, whatever comes and goes after it.
#[test]
fn cursors_give_what_was_there_when_they_were_opened(rt: HostRuntime) -> Result<(), Fail> {
    let table = [
        (Step::Delete(1), Told::Removed),
        (Step::Open, Told::Cursor(0)),
        (Step::Insert(1), Told::Added),
        (Step::Open, Told::Cursor(1)),
        (Step::Delete(1), Told::Removed),
        (Step::Open, Told::Cursor(2)),
        (Step::Next(0), Told::End),
        (Step::Next(1), Told::Item(Some(1))),
        (Step::Next(1), Told::End),
        (Step::Next(2), Told::End),
        (Step::Delete(1), Told::Absent),
    ];
    let mut desk = Asked::relation(&rt, rt.alloc());
    for (step, want) in table {
        assert_eq!(rt; desk.take(&rt, rt.alloc(), step), want, "{step:?}");
    }
    Ok(())
}

// Tuples stand in the order of their keys, and each stands once.
#[test]
fn tuples_stand_in_key_order(rt: HostRuntime) -> Result<(), Fail> {
    let table = [
        (Step::Insert(3), Told::Added),
        (Step::Insert(1), Told::Present),
        (Step::Insert(0), Told::Added),
        (Step::Insert(3), Told::Present),
        (Step::Open, Told::Cursor(0)),
        (Step::Next(0), Told::Item(Some(0))),
        (Step::Next(0), Told::Item(Some(1))),
        (Step::Next(0), Told::Item(Some(3))),
        (Step::Next(0), Told::End),
    ];
    let mut desk = Asked::relation(&rt, rt.alloc());
    for (step, want) in table {
        assert_eq!(rt; desk.take(&rt, rt.alloc(), step), want, "{step:?}");
    }
    Ok(())
}

// Takes p(1) out and puts it in again, by turns, and says whether each was done.
fn change_by_turns(rt: &impl Abort, alloc: Global, desk: &mut Asked, times: usize) -> bool {
    let mut all = true;
    for k in 0..times {
        let (step, want) = if k % 2 == 0 {
            (Step::Delete(1), Told::Removed)
        } else {
            (Step::Insert(1), Told::Added)
        };
        all &= desk.take(rt, alloc, step) == want;
    }
    all
}

// The 20,001st change is refused, and what stands there is still told.
#[test]
fn changes_above_the_limit_are_refused(rt: HostRuntime) -> Result<(), Fail> {
    let table = [
        (Step::Delete(1), Told::Full),
        (Step::Insert(2), Told::Full),
        (Step::Open, Told::Cursor(0)),
        (Step::Next(0), Told::Item(Some(1))),
        (Step::Next(0), Told::End),
    ];
    let mut desk = Asked::relation(&rt, rt.alloc());
    assert!(rt; change_by_turns(&rt, rt.alloc(), &mut desk, MAX_CHANGES));
    for (step, want) in table {
        assert_eq!(rt; desk.take(&rt, rt.alloc(), step), want, "{step:?}");
    }
    Ok(())
}
