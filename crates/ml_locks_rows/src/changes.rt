//! What calls leave in the table.
use crate::asked::{Locks, Told};
use ml_desk::Mode::{S, X};
use std::alloc::{AllocError, Global};
use std::test::Fail;

#[test]
fn a_new_table_is_free(rt: HostRuntime) -> Result<(), Fail> {
    let locks = Locks::new(rt.alloc())?;
    assert!(rt; !locks.is_held(rt.alloc(), 0b1)?);
    Ok(())
}

#[test]
fn a_unit_that_is_granted_is_held(rt: HostRuntime) -> Result<(), Fail> {
    let mut locks = Locks::new(rt.alloc())?;
    assert_eq!(rt; locks.request(rt.alloc(), 3, &[0b1_1], S)?, Told::Granted);
    assert_eq!(rt; locks.mode_of(rt.alloc(), 3, 0b1_1)?, Some(S));
    Ok(())
}

// Session 3 may change 0b1, and 4 and 5 read 0b1_0.
fn three_hold(alloc: Global) -> Result<Locks, AllocError> {
    let mut locks = Locks::new(alloc)?;
    locks.request(alloc, 3, &[0b1], X)?;
    locks.request(alloc, 4, &[0b1_0], S)?;
    locks.request(alloc, 5, &[0b1_0], S)?;
    Ok(locks)
}

#[test]
fn a_unit_is_inherited_in_its_mode(rt: HostRuntime) -> Result<(), Fail> {
    let mut locks = three_hold(rt.alloc())?;
    locks.inherit(rt.alloc(), 0b1, 0b1_0)?;
    assert_eq!(rt; locks.mode_of(rt.alloc(), 3, 0b1_0)?, Some(X));
    assert_eq!(rt; locks.mode_of(rt.alloc(), 4, 0b1_0)?, None);
    Ok(())
}

#[test]
fn readers_are_inherited_too(rt: HostRuntime) -> Result<(), Fail> {
    let mut locks = three_hold(rt.alloc())?;
    locks.inherit(rt.alloc(), 0b1_0, 0b1_00)?;
    assert_eq!(rt; locks.mode_of(rt.alloc(), 4, 0b1_00)?, Some(S));
    assert_eq!(rt; locks.mode_of(rt.alloc(), 5, 0b1_00)?, Some(S));
    Ok(())
}

#[test]
fn a_session_that_is_released_holds_nothing(rt: HostRuntime) -> Result<(), Fail> {
    let mut locks = three_hold(rt.alloc())?;
    locks.release(4);
    assert_eq!(rt; locks.mode_of(rt.alloc(), 4, 0b1_0)?, None);
    assert_eq!(rt; locks.mode_of(rt.alloc(), 5, 0b1_0)?, Some(S));
    Ok(())
}

#[test]
fn a_unit_that_is_forgotten_is_free(rt: HostRuntime) -> Result<(), Fail> {
    let mut locks = three_hold(rt.alloc())?;
    locks.forget(rt.alloc(), 0b1_0)?;
    assert!(rt; !locks.is_held(rt.alloc(), 0b1_0)?);
    assert!(rt; locks.is_held(rt.alloc(), 0b1)?);
    Ok(())
}

#[test]
fn a_unit_that_is_weakened_is_shared(rt: HostRuntime) -> Result<(), Fail> {
    let mut locks = three_hold(rt.alloc())?;
    locks.weaken(&rt, rt.alloc(), 3, 0b1, Some(S))?;
    assert_eq!(rt; locks.request(rt.alloc(), 9, &[0b1], S)?, Told::Granted);
    Ok(())
}
