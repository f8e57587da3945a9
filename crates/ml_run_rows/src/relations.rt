//! Goals that are calls of relations.

use crate::runs::check;
use std::alloc::{AllocError, Global};
use std::test::Fail;

const P: &[u8] = b":- relation(p/1). p(2). p(1).";

const Q: &[u8] = b":- relation(p/1). :- relation(q/2). :- relation(r/3).
q(a,a). q(b,a). p(7). q([1,2],f(3)). r(x,y,z). q(f(a,b),b). q(b,a).
r('A b',-5,[]). p(it). p(7). r(x,y,g([x|y],{})).";

#[test]
fn a_budget_is_spent_by_calls_and_by_tuples(rt: HostRuntime) -> Result<(), Fail> {
    let alloc = rt.alloc();
    let table: [(&[u8], &[u8]); 8] = [
        (
            b":- budget(3). ?- p(X).",
            b"session 1 committed\ngoal 1\n  X = 1\n  X = 2\n  2 answers\n",
        ),
        (
            b":- budget(2). ?- p(X).",
            b"session 1 failed at goal 1\ngoal 1\n  X = 1\n  error resource_error(inferences)\n",
        ),
        (
            b":- budget(1). ?- p(X).",
            b"session 1 failed at goal 1\ngoal 1\n  error resource_error(inferences)\n",
        ),
        (
            b":- budget(1). ?- p(3).",
            b"session 1 committed\ngoal 1\n  0 answers\n",
        ),
        (
            b":- budget(5). ?- p(X). ?- p(Y). ?- p(Z).",
            b"session 1 failed at goal 2\ngoal 1\n  X = 1\n  X = 2\n  2 answers\ngoal 2\n  Y = 1\n  error resource_error(inferences)\n",
        ),
        (
            b":- budget(3). ?- p(X). ?- p(3).",
            b"session 1 failed at goal 2\ngoal 1\n  X = 1\n  X = 2\n  2 answers\ngoal 2\n  error resource_error(inferences)\n",
        ),
        (
            b":- budget(6). ?- p(X). ?- p(Y).",
            b"session 1 committed\ngoal 1\n  X = 1\n  X = 2\n  2 answers\ngoal 2\n  Y = 1\n  Y = 2\n  2 answers\n",
        ),
        (b"", b"session 1 committed\n"),
    ];
    for (script, want) in table {
        check(&rt, alloc, P, script, want)?;
    }
    Ok(())
}

#[test]
fn goals_meet_tuples_as_terms(rt: HostRuntime) -> Result<(), Fail> {
    let alloc = rt.alloc();
    let table: [(&[u8], &[u8]); 14] = [
        (
            b"?- p(X).",
            b"session 1 committed\ngoal 1\n  X = 7\n  X = it\n  2 answers\n",
        ),
        (
            b"?- p(_X).",
            b"session 1 committed\ngoal 1\n  true\n  true\n  2 answers\n",
        ),
        (
            b"?- p(it).",
            b"session 1 committed\ngoal 1\n  true\n  1 answers\n",
        ),
        (
            b"?- p(_).",
            b"session 1 committed\ngoal 1\n  true\n  true\n  2 answers\n",
        ),
        (
            b"?- q(X,X).",
            b"session 1 committed\ngoal 1\n  X = a\n  1 answers\n",
        ),
        (
            b"?- q(f(X,Y),Y).",
            b"session 1 committed\ngoal 1\n  X = a, Y = b\n  1 answers\n",
        ),
        (
            b"?- q(f(X,X),_).",
            b"session 1 committed\ngoal 1\n  0 answers\n",
        ),
        (
            b"?- q([H|T],f(N)).",
            b"session 1 committed\ngoal 1\n  H = 1, T = [2], N = 3\n  1 answers\n",
        ),
        (
            b"?- q(_Y,f(X)).",
            b"session 1 committed\ngoal 1\n  X = 3\n  1 answers\n",
        ),
        (
            b"?- q(b,X).",
            b"session 1 committed\ngoal 1\n  X = a\n  1 answers\n",
        ),
        (
            b"?- r('A b',N,L).",
            b"session 1 committed\ngoal 1\n  N = -5, L = []\n  1 answers\n",
        ),
        (
            b"?- r(X,_Y,g([X|Y],Z)).",
            b"session 1 committed\ngoal 1\n  X = x, Y = y, Z = {}\n  1 answers\n",
        ),
        (
            b"?- r(X,X,Y).",
            b"session 1 committed\ngoal 1\n  0 answers\n",
        ),
        (
            b"?- r(_,y,z). ?- p(8). ?- q(b,_).",
            b"session 1 committed\ngoal 1\n  true\n  1 answers\ngoal 2\n  0 answers\ngoal 3\n  true\n  1 answers\n",
        ),
    ];
    for (script, want) in table {
        check(&rt, alloc, Q, script, want)?;
    }
    Ok(())
}

#[test]
fn tuples_stand_in_the_order_of_their_keys(rt: HostRuntime) -> Result<(), Fail> {
    let alloc = rt.alloc();
    let rules =
        b":- relation(p/1). :- relation(q/2,[2]). p(10). q(1,2). p(9). q(2,1). p(-1). p(10). p(b). p(a). q(3,1). q(1,2). p(2305843009213693951).";
    let table: [(&[u8], &[u8]); 2] = [
        (
            b"?- p(X).",
            b"session 1 committed\ngoal 1\n  X = -1\n  X = 9\n  X = 10\n  X = 2305843009213693951\n  X = a\n  X = b\n  6 answers\n",
        ),
        (
            b"?- q(X,Y).",
            b"session 1 committed\ngoal 1\n  X = 2, Y = 1\n  X = 3, Y = 1\n  X = 1, Y = 2\n  3 answers\n",
        ),
    ];
    for (script, want) in table {
        check(&rt, alloc, rules, script, want)?;
    }
    Ok(())
}

// `?- p([0,..,0]).` with so many zeros.
fn goal_with_zeros(alloc: Global, zeros: usize) -> Result<String, AllocError> {
    let mut text = String::from_str(alloc, "?- p([0")?;
    for _ in 1..zeros {
        text.push_str(",0")?;
    }
    text.push_str("]). ?- p(X).")?;
    Ok(text)
}

#[test]
fn the_largest_goal_of_a_text_is_called(rt: HostRuntime) -> Result<(), Fail> {
    let alloc = rt.alloc();
    let script = goal_with_zeros(alloc, 2046)?;
    let want: &[u8] = b"session 1 committed\ngoal 1\n  0 answers\n\
goal 2\n  X = 1\n  X = 2\n  2 answers\n";
    check(&rt, alloc, P, script.as_bytes(), want)?;
    Ok(())
}
