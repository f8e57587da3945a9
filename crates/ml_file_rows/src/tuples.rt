//! Tuples that patterns meet, and one that is marked.
use crate::terms::{compound_2, declared, hits, insert_tuple, matches, new_file, push, tuple_key};
use ml_bits::Bits;
use ml_file::{BangFile, Put};
use ml_region::Id;
use ml_term::{Kind, Term};
use std::alloc::Global;
use std::process::Abort;

// The term q(a, b).
fn pair(rt: &impl Abort, alloc: Global, a: Term, b: Term) -> Term {
    compound_2(rt, alloc, b"q", a, b)
}

// The first argument of a term.
fn first(t: &Term) -> Option<i64> {
    match t {
        Term::Cmp(_, ts) => match ts.as_slice().first() {
            Some(Term::Int(n)) => Some(*n),
            _ => None,
        },
        _ => None,
    }
}

// Whether terms have these first arguments, in this order.
fn have_firsts(terms: &[Term], wanted: &[i64]) -> bool {
    if terms.len() != wanted.len() {
        return false;
    }
    for (t, n) in terms.iter().zip(wanted) {
        if first(t) != Some(*n) {
            return false;
        }
    }
    true
}

// Asserts that q(a, b) meets the tuples of these first arguments, in this order: as items, and as
// copies of their terms.
fn expect(rt: &impl Abort, alloc: Global, file: &BangFile, a: Term, b: Term, wanted: &[i64]) {
    let head = pair(rt, alloc, a, b);
    assert!(rt; have_firsts(matches(rt, file, &head).as_slice(), wanted));
    let items = hits(rt, file, &head);
    assert_eq!(rt; items.len(), wanted.len());
    for (item, n) in items.iter().zip(wanted) {
        assert_eq!(rt; first(&item.term), Some(*n));
    }
}

// A file of q(29, 2), q(28, 1) and so on to q(0, 0), keyed by the first argument, in more than one
// region.
fn thirty(rt: &impl Abort, alloc: Global) -> BangFile {
    let relation = declared(rt, alloc, b"q", 2, Kind::Relation, [1].as_slice());
    let mut file = new_file(rt, alloc, relation);
    for n in 0..30u32 {
        let first = i64::from(29 - n);
        let t = pair(rt, alloc, Term::Int(first), Term::Int(first % 3));
        assert!(rt; insert_tuple(rt, &mut file, t) == Put::Added);
    }
    assert!(rt; file.len() > 1);
    file
}

// The numbers from 0 to 29.
fn to_twenty_nine(rt: &impl Abort, alloc: Global) -> Vec<i64> {
    let mut numbers = Vec::new(alloc);
    for n in 0..30i64 {
        push(rt, &mut numbers, n);
    }
    numbers
}

// A pattern of variables meets all tuples, over all regions, in the order of their keys.
#[test]
fn tuples_are_found_in_key_order(rt: HostRuntime) {
    let alloc = rt.alloc();
    let file = thirty(&rt, alloc);
    let all = to_twenty_nine(&rt, alloc);
    expect(
        &rt,
        alloc,
        &file,
        Term::Var(0),
        Term::Var(1),
        all.as_slice(),
    );
}

// A pattern meets just the tuples that unify with it.
#[test]
fn tuples_that_do_not_unify_are_left_out(rt: HostRuntime) {
    let alloc = rt.alloc();
    let file = thirty(&rt, alloc);
    let some = [2, 5, 8, 11, 14, 17, 20, 23, 26, 29];
    expect(&rt, alloc, &file, Term::Var(0), Term::Int(2), &some);
    expect(&rt, alloc, &file, Term::Var(0), Term::Var(0), &[0, 1, 2]);
    expect(&rt, alloc, &file, Term::Int(17), Term::Var(0), &[17]);
    expect(&rt, alloc, &file, Term::Int(17), Term::Int(0), &[]);
}

// The mark that a test sets.
const MARK: Id = Id {
    place: 7,
    change: 2,
};

// Marks the item that has a key as one that isn't committed, and says whether there is one.
fn marked(file: &mut BangFile, key: &Bits) -> bool {
    let Some(_item) = file.at(key) else {
        return false;
    };
    file.mark(key, false, MARK);
    true
}

// The item that has a key is marked, and no other one.
#[test]
fn one_tuple_is_marked(rt: HostRuntime) {
    let alloc = rt.alloc();
    let mut file = thirty(&rt, alloc);
    let t = pair(&rt, alloc, Term::Int(4), Term::Int(1));
    let key = tuple_key(&rt, alloc, &file, &t);
    assert!(rt; marked(&mut file, &key));
    let head = pair(&rt, alloc, Term::Var(0), Term::Var(1));
    let items = hits(&rt, &file, &head);
    assert_eq!(rt; items.len(), 30);
    for item in items.iter() {
        let is_it = first(&item.term) == Some(4);
        assert_eq!(rt; item.committed, !is_it);
        assert_eq!(rt; item.id == MARK, is_it);
    }
}
