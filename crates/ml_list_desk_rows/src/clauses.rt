//! What the desk replies to operations on one list of clauses.
use crate::asked::{Asked, Step, Told};
use std::test::Fail;

// Clauses are put before all others and behind them, and an older cursor doesn't see them.
#[test]
fn clauses_are_put_first_and_last(rt: HostRuntime) -> Result<(), Fail> {
    let table = [
        (Step::Open, Told::Cursor(0)),
        (Step::Asserta(0), Told::Added),
        (Step::Assertz(2), Told::Added),
        (Step::Assertz(1), Told::Added),
        (Step::Open, Told::Cursor(1)),
        (Step::Next(1), Told::Item(Some(0))),
        (Step::Next(1), Told::Item(Some(1))),
        (Step::Next(1), Told::Item(Some(2))),
        (Step::Next(1), Told::Item(Some(1))),
        (Step::Next(1), Told::End),
        (Step::Next(0), Told::Item(Some(1))),
        (Step::Next(0), Told::End),
    ];
    let mut desk = Asked::clauses(&rt, rt.alloc());
    for (step, want) in table {
        assert_eq!(rt; desk.take(&rt, rt.alloc(), step), want, "{step:?}");
    }
    Ok(())
}

// A cursor's item that is gone isn't taken out again, nor is an equal clause in its place.
#[test]
fn a_clause_is_taken_out_once(rt: HostRuntime) -> Result<(), Fail> {
    let table = [
        (Step::Open, Told::Cursor(0)),
        (Step::Open, Told::Cursor(1)),
        (Step::Next(0), Told::Item(Some(1))),
        (Step::Next(1), Told::Item(Some(1))),
        (Step::DeleteAt(0, 0), Told::Removed),
        (Step::DeleteAt(0, 0), Told::Absent),
        (Step::Assertz(1), Told::Added),
        (Step::DeleteAt(1, 0), Told::Absent),
        (Step::Open, Told::Cursor(2)),
        (Step::Next(2), Told::Item(Some(1))),
        (Step::DeleteAt(2, 0), Told::Removed),
        (Step::Open, Told::Cursor(3)),
        (Step::Next(3), Told::End),
    ];
    let mut desk = Asked::clauses(&rt, rt.alloc());
    for (step, want) in table {
        assert_eq!(rt; desk.take(&rt, rt.alloc(), step), want, "{step:?}");
    }
    Ok(())
}
