//! Expressions through their bytes: the integers that they come to, and their first faults.
use ml_arith::{EvalFault, EvalStop, eval};
use ml_heap::Heap;
use ml_reader::read_clauses;
use ml_term::is_valid;
use std::alloc::{AllocError, Global};
use std::process::Abort;
use std::test::Fail;

/// What an expression comes to: its integer, or its first fault. What is no expression is told by
/// the first byte of its name and its arity.
#[derive(Clone, Copy, Debug, PartialEq, Eq)]
enum Told {
    Value(i64),
    Unbound,
    NotEvaluable(Option<u8>, u8),
    Overflow,
    ZeroDivisor,
    Unread,
}

fn tell(alloc: Global, text: &[u8]) -> Result<Told, AllocError> {
    if text.len() > 1000 {
        return Ok(Told::Unread);
    }
    let clauses = match read_clauses(alloc, text) {
        Ok(clauses) => clauses,
        Err(_) => return Ok(Told::Unread),
    };
    let Some((read, _)) = clauses.as_slice().split_last() else {
        return Ok(Told::Unread);
    };
    if !is_valid(&read.term) {
        return Ok(Told::Unread);
    }
    let mut heap = Heap::new(alloc);
    let at = heap.store_tree(&read.term)?;
    match eval(&heap, at) {
        Ok(v) => Ok(Told::Value(v)),
        Err(EvalStop::Fault(fault)) => Ok(told_of(&fault)),
        Err(EvalStop::OutOfMemory) => Err(AllocError),
    }
}

fn told_of(fault: &EvalFault) -> Told {
    match fault {
        EvalFault::Unbound => Told::Unbound,
        EvalFault::NotEvaluable(name, arity) => {
            Told::NotEvaluable(name.as_slice().first().copied(), *arity)
        }
        EvalFault::Overflow => Told::Overflow,
        EvalFault::ZeroDivisor => Told::ZeroDivisor,
    }
}

#[test]
fn expressions_come_to_integers(rt: HostRuntime) -> Result<(), Fail> {
    let table: [(&[u8], i64); 25] = [
        (b"7.", 7),
        (b"2 + 3.", 5),
        (b"2 - 3.", -1),
        (b"-2 * 3.", -6),
        (b"-(3).", -3),
        (b"- (-3).", 3),
        (b"-7 // 2.", -3),
        (b"7 // -2.", -3),
        (b"-7 // -2.", 3),
        (b"-7 rem 2.", -1),
        (b"7 rem -2.", 1),
        (b"-7 rem -2.", -1),
        (b"-7 mod 2.", 1),
        (b"7 mod -2.", -1),
        (b"-7 mod -2.", -1),
        (b"7 mod 2.", 1),
        (b"-6 mod 2.", 0),
        (b"0 mod -3.", 0),
        (b"-2305843009213693951 - 1.", -2305843009213693952),
        (b"2305843009213693951 + 0.", 2305843009213693951),
        (b"2305843009213693951 mod -2305843009213693952.", -1),
        (b"-2305843009213693952 mod -1.", 0),
        (b"1 + 2 * 3 - 4.", 3),
        (b"(1 + 2) * (3 - 4) * 5.", -15),
        (b"10 - (3 - (2 - 1)).", 8),
    ];
    for (text, want) in table {
        assert_eq!(rt; tell(rt.alloc(), text)?, Told::Value(want), "{text:?}");
    }
    Ok(())
}

#[test]
fn the_first_fault_is_told(rt: HostRuntime) -> Result<(), Fail> {
    let table: [(&[u8], Told); 22] = [
        (b"X.", Told::Unbound),
        (b"1 + X.", Told::Unbound),
        (b"foo.", Told::NotEvaluable(Some(b'f'), 0)),
        (b"''.", Told::NotEvaluable(None, 0)),
        (b"[].", Told::NotEvaluable(Some(b'['), 0)),
        (b"1 / 0.", Told::NotEvaluable(Some(b'/'), 2)),
        (b"foo(X).", Told::NotEvaluable(Some(b'f'), 1)),
        (b"foo(X, 1).", Told::NotEvaluable(Some(b'f'), 2)),
        (b"mod(1, 2, X).", Told::NotEvaluable(Some(b'm'), 3)),
        (b"+(1).", Told::NotEvaluable(Some(b'+'), 1)),
        (b"foo + X.", Told::NotEvaluable(Some(b'f'), 0)),
        (b"X + foo.", Told::Unbound),
        (b"foo // 0.", Told::NotEvaluable(Some(b'f'), 0)),
        (b"(1 // 0) + foo.", Told::ZeroDivisor),
        (b"1 // 0.", Told::ZeroDivisor),
        (b"1 rem 0.", Told::ZeroDivisor),
        (b"0 mod (1 - 1).", Told::ZeroDivisor),
        (b"2305843009213693951 + 1.", Told::Overflow),
        (b"-2305843009213693952 - 1.", Told::Overflow),
        (b"-(-2305843009213693952).", Told::Overflow),
        (b"-2305843009213693952 // -1.", Told::Overflow),
        (b"2000000000 * 2000000000 - 2000000000.", Told::Overflow),
    ];
    for (text, want) in table {
        assert_eq!(rt; tell(rt.alloc(), text)?, want, "{text:?}");
    }
    Ok(())
}
