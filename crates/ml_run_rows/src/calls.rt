//! Goals that call a program's clauses, stored clauses and control constructs, and how scripts end.

use crate::runs::check;
use std::test::Fail;

const A: &[u8] = b"a(1). a(2). b(X) :- a(X), !. c(X) :- a(X), \\+ b(X).";

#[test]
fn clauses_are_called_in_their_order(rt: HostRuntime) -> Result<(), Fail> {
    let alloc = rt.alloc();
    let table: [(&[u8], &[u8]); 7] = [
        (
            b"?- a(X).",
            b"session 1 committed\ngoal 1\n  X = 1\n  X = 2\n  2 answers\n",
        ),
        (
            b"?- b(X).",
            b"session 1 committed\ngoal 1\n  X = 1\n  1 answers\n",
        ),
        (b"?- c(X).", b"session 1 committed\ngoal 1\n  0 answers\n"),
        (
            b"?- a(X), !, fail.",
            b"session 1 committed\ngoal 1\n  0 answers\n",
        ),
        (
            b"?- a(X), a(Y).",
            b"session 1 committed\ngoal 1\n  X = 1, Y = 1\n  X = 1, Y = 2\n  X = 2, Y = 1\n  X = 2, Y = 2\n  4 answers\n",
        ),
        (
            b"?- findall(_X, a(_X), L).",
            b"session 1 committed\ngoal 1\n  L = [1,2]\n  1 answers\n",
        ),
        (
            b"?- catch(throw(it), X, true).",
            b"session 1 committed\ngoal 1\n  X = it\n  1 answers\n",
        ),
    ];
    for (script, want) in table {
        check(&rt, alloc, A, script, want)?;
    }
    Ok(())
}

#[test]
fn stored_clauses_are_called_in_their_order(rt: HostRuntime) -> Result<(), Fail> {
    let alloc = rt.alloc();
    let rules = b":- clauses(c/1). :- relation(p/1). p(3). c(1). c(X) :- p(X). p(2).";
    let script = b"?- c(X).";
    let want = b"session 1 committed\ngoal 1\n  X = 1\n  X = 2\n  X = 3\n  3 answers\n";
    check(&rt, alloc, rules, script, want)?;
    Ok(())
}

#[test]
fn scripts_end_as_they_say(rt: HostRuntime) -> Result<(), Fail> {
    let alloc = rt.alloc();
    let table: [(&[u8], &[u8]); 3] = [
        (
            b"?- b(X). :- abort.",
            b"session 1 aborted\ngoal 1\n  X = 1\n  1 answers\n",
        ),
        (b":- commit_unless(a(1)).", b"session 1 refused\n"),
        (b":- commit_unless(a(3)).", b"session 1 committed\n"),
    ];
    for (script, want) in table {
        check(&rt, alloc, A, script, want)?;
    }
    Ok(())
}
