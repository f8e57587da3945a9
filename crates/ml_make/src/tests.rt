//! That the texts are made while there is memory.

use crate::{make_rules, make_script};
use std::test::Fail;

#[test]
fn rules_of_six_facts(rt: HostRuntime) -> Result<(), Fail> {
    let rules = make_rules(rt.alloc(), 6)?;
    let lines = b":- relation(m/2).\nm(0,1).\nm(6,2).\nm(8,3).\nm(9,4).\nm(0,5).\nm(0,6).\n";
    assert!(rt; rules.as_slice() == lines.as_slice());
    Ok(())
}

#[test]
fn the_first_script(rt: HostRuntime) -> Result<(), Fail> {
    let script = make_script(rt.alloc(), 1)?;
    let lines =
        b":- budget(200000).\n?- m(0,B).\n?- m(0,B), 0 =:= B mod 3, delete_tuple(m(0,B)).\n?- m(0,B).\n";
    assert!(rt; script.as_slice() == lines.as_slice());
    Ok(())
}
