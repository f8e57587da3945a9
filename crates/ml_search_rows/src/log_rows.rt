//! Logs and changes, copied with ample memory.
use ml_search::{Change, Log, Op, Reply, What};
use ml_term::Term;
use std::test::Fail;

// Which operation it is, with its numbers, or the integer that is its term.
fn numbers_of(op: &Op) -> (u8, i64, u32) {
    match op {
        Op::Open(d, t) => (0, number_of(t), *d),
        Op::Next(c, i) => (1, *c as i64, *i),
        Op::Insert(t) => (2, number_of(t), 0),
        Op::Delete(t) => (3, number_of(t), 0),
        Op::Assertz(t) => (4, number_of(t), 0),
        Op::Asserta(t) => (5, number_of(t), 0),
        Op::DeleteAt(c, i) => (6, *c as i64, *i),
    }
}

// Which reply it is, with its number or the integer that is its term.
fn reply_number(reply: &Reply) -> (u8, i64) {
    match reply {
        Reply::Cursor(c) => (0, *c as i64),
        Reply::Item(t) => (1, number_of(t)),
        Reply::End => (2, 0),
        Reply::Added => (3, 0),
        Reply::Present => (4, 0),
        Reply::Removed => (5, 0),
        Reply::Absent => (6, 0),
        Reply::Full => (7, 0),
    }
}

// The integer that a term is, and -1 for every other term.
fn number_of(t: &Term) -> i64 {
    match t {
        Term::Int(z) => *z,
        _ => -1,
    }
}

#[test]
fn a_log_of_every_operation_and_reply_is_copied(rt: HostRuntime) -> Result<(), Fail> {
    let alloc = rt.alloc();
    let mut log = Log::new(alloc);
    log.push(Op::Open(2, Term::Int(10)), Reply::Cursor(3))?;
    log.push(Op::Next(3, 1), Reply::Item(Term::Int(11)))?;
    log.push(Op::Next(3, 2), Reply::End)?;
    log.push(Op::Insert(Term::Int(12)), Reply::Added)?;
    log.push(Op::Insert(Term::Int(13)), Reply::Present)?;
    log.push(Op::Delete(Term::Int(14)), Reply::Removed)?;
    log.push(Op::Assertz(Term::Int(15)), Reply::Full)?;
    log.push(Op::Asserta(Term::Int(16)), Reply::Added)?;
    log.push(Op::DeleteAt(3, 1), Reply::Absent)?;
    let copy = log.copy_of(alloc)?;
    let wanted = [
        ((0, 10, 2), (0, 3)),
        ((1, 3, 1), (1, 11)),
        ((1, 3, 2), (2, 0)),
        ((2, 12, 0), (3, 0)),
        ((2, 13, 0), (4, 0)),
        ((3, 14, 0), (5, 0)),
        ((4, 15, 0), (7, 0)),
        ((5, 16, 0), (3, 0)),
        ((6, 3, 1), (6, 0)),
    ];
    assert_eq!(rt; copy.as_slice().len(), wanted.len());
    for ((op, reply), (op_wanted, reply_wanted)) in copy.as_slice().iter().zip(wanted) {
        assert_eq!(rt; numbers_of(op), op_wanted);
        assert_eq!(rt; reply_number(reply), reply_wanted);
    }
    Ok(())
}

#[test]
fn a_change_is_copied(rt: HostRuntime) -> Result<(), Fail> {
    let change = Change {
        what: What::Dropped,
        term: Term::Int(5),
    };
    let copy = change.copy_of(rt.alloc())?;
    assert!(rt; copy.what == What::Dropped);
    assert_eq!(rt; number_of(&copy.term), 5);
    Ok(())
}
