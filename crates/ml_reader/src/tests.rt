//! Each call that takes memory, once.
use crate::{Items, Names, read_clauses, read_rules, read_script};
use ml_term::Name;
use std::alloc::AllocError;
use std::process::Abort;
use std::test::Fail;

#[test]
fn names_stand_in_order(rt: HostRuntime) -> Result<(), Fail> {
    let alloc = rt.alloc();
    let mut names = Names::new(alloc);
    names.push(Name::new(alloc, b"X")?, 0)?;
    names.push(Name::new(alloc, b"Y")?, 1)?;
    let numbers = names.as_slice();
    assert!(rt; numbers.len() == 2 && numbers[0].1 == 0 && numbers[1].1 == 1);
    Ok(())
}

#[test]
fn clauses_are_read(rt: HostRuntime) -> Result<(), Fail> {
    match read_clauses(rt.alloc(), b"p(X). q.") {
        Ok(clauses) => assert_eq!(rt; clauses.len(), 2),
        Err(_) => return Err(Fail::from(AllocError)),
    }
    Ok(())
}

fn shared<T: Send + Sync>(_value: &T) {}

#[test]
fn rules_are_read_and_may_be_shared(rt: HostRuntime) -> Result<(), Fail> {
    let alloc = rt.alloc();
    let rules = read_rules(alloc, b":- relation(p/1). p(1). q.")?;
    shared(&rules);
    let items = Items::from_vec(rules.items.copy_of(alloc)?.into_vec());
    assert_eq!(rt; items.as_slice().len(), 1);
    Ok(())
}

#[test]
fn a_script_is_read(rt: HostRuntime) -> Result<(), Fail> {
    let script = read_script(rt.alloc(), b":- budget(7). ?- p(X).")?;
    assert_eq!(rt; script.budget, 7);
    Ok(())
}
