//! What requests come to, one after another.
use crate::asked::{Locks, Told};
use ml_desk::Mode::{S, X};
use std::test::Fail;

// Readers share a unit. Another mode is granted to nobody else: an older session waits for the
// oldest one in its way, and a younger one dies.
#[test]
fn one_unit_is_granted_waited_for_and_died_of(rt: HostRuntime) -> Result<(), Fail> {
    let table = [
        (3, S, Told::Granted),
        (5, S, Told::Granted),
        (5, X, Told::Died(3, 0b1_01)),
        (3, X, Told::Wait(5)),
        (2, X, Told::Wait(3)),
        (4, X, Told::Died(3, 0b1_01)),
        (9, X, Told::Died(3, 0b1_01)),
        (4, S, Told::Granted),
        (3, S, Told::Granted),
    ];
    let mut locks = Locks::new(rt.alloc())?;
    for (session, mode, want) in table {
        let told = locks.request(rt.alloc(), session, &[0b1_01], mode)?;
        assert_eq!(rt; told, want, "{session} {mode:?}");
    }
    Ok(())
}

// Who may change a unit excludes all others, readers too, and may read it.
#[test]
fn a_writer_is_alone(rt: HostRuntime) -> Result<(), Fail> {
    let table = [
        (4, S, Told::Granted),
        (4, X, Told::Granted),
        (4, S, Told::Granted),
        (4, X, Told::Granted),
        (3, S, Told::Wait(4)),
        (5, S, Told::Died(4, 0b1)),
        (3, X, Told::Wait(4)),
        (5, X, Told::Died(4, 0b1)),
    ];
    let mut locks = Locks::new(rt.alloc())?;
    for (session, mode, want) in table {
        let told = locks.request(rt.alloc(), session, &[0b1], mode)?;
        assert_eq!(rt; told, want, "{session} {mode:?}");
    }
    Ok(())
}

// Of several sessions in the way the oldest one is named, wherever it stands, and of several units
// that it holds in the way the first one in the order of prefixes. What isn't granted leaves
// nothing.
#[test]
fn several_units_are_granted_together(rt: HostRuntime) -> Result<(), Fail> {
    let table: [(u32, [u32; 3], _, _); 9] = [
        (7, [0b1_1, 0b1_1, 0b1_1], X, Told::Granted),
        (2, [0b1_01, 0b1_010, 0b1_01], X, Told::Granted),
        (4, [0b1_0, 0b1_00, 0b1_0], S, Told::Granted),
        (9, [0b1_1, 0b1_010, 0b1_01], S, Told::Died(2, 0b1_01)),
        (9, [0b1_1, 0b1_0, 0b1_00], X, Told::Died(4, 0b1_0)),
        (9, [0b1_1, 0b1_0, 0b1_00], S, Told::Died(7, 0b1_1)),
        (3, [0b1_1, 0b1_00, 0b1_0], X, Told::Wait(4)),
        (3, [0b1_1, 0b1_00, 0b1_0], S, Told::Wait(7)),
        (8, [0b1_00, 0b1_0, 0b1_011], S, Told::Granted),
    ];
    let mut locks = Locks::new(rt.alloc())?;
    for (session, units, mode, want) in table {
        let told = locks.request(rt.alloc(), session, &units, mode)?;
        assert_eq!(rt; told, want, "{session} {units:?} {mode:?}");
    }
    Ok(())
}
