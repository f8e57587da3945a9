//! Runs with many answers.

use crate::runs::run;
use std::alloc::{AllocError, Global};
use std::test::Fail;

// Thirty facts, each with a list of 15 atoms of 250 letters.
fn long_rules(alloc: Global) -> Result<String, AllocError> {
    let mut text = String::from_str(alloc, ":- relation(p/2).\n")?;
    for n in 0u32..30 {
        text.push_str("p([")?;
        for i in 0..15 {
            if i > 0 {
                text.push_str(",")?;
            }
            for _ in 0..25 {
                text.push_str("abcdefghij")?;
            }
        }
        let end = format!(in alloc; "],{n}).\n")?;
        text.push_str(end.as_str())?;
    }
    Ok(text)
}

#[test]
fn answers_past_their_limit_end_the_session(rt: HostRuntime) -> Result<(), Fail> {
    let alloc = rt.alloc();
    let rules = long_rules(alloc)?;
    let mut script = String::from_str(alloc, ":- budget(200000).\n")?;
    for _ in 0..12 {
        script.push_str("?- p(X,_).\n")?;
    }
    let out = run(&rt, alloc, rules.as_bytes(), script.as_bytes())?;
    let bytes = out.bytes();
    let first: &[u8] = b"session 1 failed at goal 10\n";
    assert!(rt; bytes.starts_with(first));
    // nine goals of 30 answers, and seven answers of the tenth, each of 3,773 bytes
    assert_eq!(rt; bytes.len(), 28 + 71 + 9 * 13 + 277 * 3773 + 31);
    let last: &[u8] = b"  error resource_error(output)\n";
    assert!(rt; bytes.ends_with(last));
    Ok(())
}

// `p(50000).` and so on down to `p(1).`
fn falling_rules(alloc: Global) -> Result<String, AllocError> {
    let mut text = String::from_str(alloc, ":- relation(p/1).\n")?;
    for n in 0u32..50000 {
        let number = 50000 - n;
        let fact = format!(in alloc; "p({number}).\n")?;
        text.push_str(fact.as_str())?;
    }
    Ok(text)
}

#[test]
fn many_tuples_in_falling_order_are_put_in_order(rt: HostRuntime) -> Result<(), Fail> {
    let alloc = rt.alloc();
    let rules = falling_rules(alloc)?;
    let script = b":- budget(200000). ?- p(50000). ?- p(X). ?- p(0).";
    let out = run(&rt, alloc, rules.as_bytes(), script)?;
    let bytes = out.bytes();
    let first: &[u8] =
        b"session 1 committed\ngoal 1\n  true\n  1 answers\ngoal 2\n  X = 1\n  X = 2\n  X = 3\n";
    assert!(rt; bytes.starts_with(first));
    let last: &[u8] = b"  X = 49999\n  X = 50000\n  50000 answers\ngoal 3\n  0 answers\n";
    assert!(rt; bytes.ends_with(last));
    Ok(())
}
