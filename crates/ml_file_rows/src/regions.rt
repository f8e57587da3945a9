//! A file without items, and the files of the worked rows.
use crate::terms::{compound_1, declared, insert_tuple, matches, new_file, tuple_key};
use ml_bits::Bits;
use ml_file::{BangFile, Put, Took};
use ml_term::{Kind, Term};
use std::alloc::Global;
use std::process::Abort;

// A file of the relation p/1 without tuples.
fn empty_file(rt: &impl Abort, alloc: Global) -> BangFile {
    let relation = declared(rt, alloc, b"p", 1, Kind::Relation, [1].as_slice());
    new_file(rt, alloc, relation)
}

// Nothing is found in a new file, and nothing is taken out of it.
#[test]
fn a_new_file_has_no_items(rt: HostRuntime) {
    let alloc = rt.alloc();
    let mut file = empty_file(&rt, alloc);
    let key = zeros(&rt, alloc, 24);
    assert_eq!(rt; file.len(), 1);
    assert!(rt; file.decl().kind == Kind::Relation);
    assert!(rt; has_prefix(&file, 0, 0, &key));
    assert!(rt; has_from(&file, 0, 0, 0));
    assert!(rt; file.at(&key).is_none());
    assert_eq!(rt; file.remove(&key), Took::Absent);
}

// The tuple p(n).
fn tuple(rt: &impl Abort, alloc: Global, number: i64) -> Term {
    compound_1(rt, alloc, b"p", Term::Int(number))
}

// Inserts p(first), p(first + 1) and so on, so many of them, which all are new.
fn insert_all(rt: &impl Abort, alloc: Global, file: &mut BangFile, first: i64, count: u32) {
    for k in 0..count {
        let t = tuple(rt, alloc, first.wrapping_add(i64::from(k)));
        assert!(rt; insert_tuple(rt, file, t) == Put::Added);
    }
}

// Takes p(n) out.
fn remove(rt: &impl Abort, alloc: Global, file: &mut BangFile, number: i64) -> Took {
    let t = tuple(rt, alloc, number);
    let key = tuple_key(rt, alloc, file, &t);
    file.remove(&key)
}

// Takes p(0), p(1) and so on out, so many of them, which all are there, and settles the file.
fn remove_first(rt: &impl Abort, alloc: Global, file: &mut BangFile, count: u32) {
    for k in 0..count {
        assert!(rt; remove(rt, alloc, file, i64::from(k)) == Took::Removed);
    }
    file.settle_all();
}

// Whether a term is a compound of this number alone.
fn is_of_number(t: &Term, number: i64) -> bool {
    match t {
        Term::Cmp(_, ts) => match ts.as_slice() {
            [Term::Int(z)] => *z == number,
            _ => false,
        },
        _ => false,
    }
}

// Whether region `i` is there, and has just the tuples p(first), p(first + 1) and so on, so many of
// them.
fn has_from(file: &BangFile, i: usize, first: i64, count: usize) -> bool {
    if i >= file.len() || file.count(i) != count {
        return false;
    }
    let mut number = first;
    for j in 0..file.count(i) {
        if !is_of_number(&file.item(i, j).term, number) {
            return false;
        }
        number = number.wrapping_add(1);
    }
    true
}

// The bits 011 and zeros, so many together and 64 at most.
fn zeros(rt: &impl Abort, alloc: Global, bits: usize) -> Bits {
    let front = [0b0110_0000, 0, 0, 0, 0, 0, 0, 0];
    assert!(rt; bits <= 64);
    match Bits::from_bytes(alloc, front.as_slice(), bits) {
        Ok(list) => list,
        Err(_) => panic!(rt; "memory was refused"),
    }
}

// Whether region `i` is there, and its prefix has so many bits, with which a key begins.
fn has_prefix(file: &BangFile, i: usize, bits: usize, key: &Bits) -> bool {
    i < file.len() && file.prefix(i).len() == bits && file.prefix(i).is_prefix_of(key)
}

// The tuples of a region: the first one's number, and how many there are, which follow one another.
type Run = (i64, usize);

// Asserts that there are two regions: one of the empty prefix, and one of 011 and zeros, so many
// bits together.
fn expect_two(
    rt: &impl Abort,
    alloc: Global,
    file: &BangFile,
    outer: Run,
    nested: Run,
    bits: usize,
) {
    let small = zeros(rt, alloc, bits);
    assert_eq!(rt; file.len(), 2);
    assert!(rt; has_prefix(file, 0, 0, &small) && has_from(file, 0, outer.0, outer.1));
    assert!(rt; has_prefix(file, 1, bits, &small) && has_from(file, 1, nested.0, nested.1));
}

// The file of p(0) to p(24).
fn first_file(rt: &impl Abort, alloc: Global) -> BangFile {
    let mut file = empty_file(rt, alloc);
    insert_all(rt, alloc, &mut file, 0, 25);
    file
}

// p(0) to p(24) are in two regions.
#[test]
fn a_region_of_25_tuples_is_split(rt: HostRuntime) {
    let alloc = rt.alloc();
    let mut file = first_file(&rt, alloc);
    expect_two(&rt, alloc, &file, (16, 9), (0, 16), 60);
    let again = tuple(&rt, alloc, 3);
    assert!(rt; insert_tuple(&rt, &mut file, again) == Put::Present);
    expect_two(&rt, alloc, &file, (16, 9), (0, 16), 60);
}

// Where p(0) to p(7) go, the nested region keeps 8.
#[test]
fn a_region_of_8_tuples_stays(rt: HostRuntime) {
    let alloc = rt.alloc();
    let mut file = first_file(&rt, alloc);
    remove_first(&rt, alloc, &mut file, 8);
    expect_two(&rt, alloc, &file, (16, 9), (8, 8), 60);
}

// Where p(8) goes too, one region is left.
#[test]
fn a_region_of_7_tuples_goes_into_its_parent(rt: HostRuntime) {
    let alloc = rt.alloc();
    let mut file = first_file(&rt, alloc);
    remove_first(&rt, alloc, &mut file, 9);
    assert_eq!(rt; file.len(), 1);
    assert!(rt; has_from(&file, 0, 9, 16));
    assert!(rt; remove(&rt, alloc, &mut file, 8) == Took::Absent);
}

// With p(32) to p(46) the first region has 24 items and isn't split. Where p(0) to p(8) go, 31
// items meet and are split again, one bit earlier.
#[test]
fn splits_again_after_a_merge(rt: HostRuntime) {
    let alloc = rt.alloc();
    let mut file = first_file(&rt, alloc);
    insert_all(&rt, alloc, &mut file, 32, 15);
    assert_eq!(rt; file.len(), 2);
    assert_eq!(rt; file.count(0), 24);
    assert!(rt; has_from(&file, 1, 0, 16));
    remove_first(&rt, alloc, &mut file, 9);
    expect_two(&rt, alloc, &file, (32, 15), (9, 16), 59);
}

// Whether terms are p(first), p(first + 1) and so on.
fn are_from(terms: &[Term], first: i64) -> bool {
    let mut number = first;
    for t in terms {
        if !is_of_number(t, number) {
            return false;
        }
        number = number.wrapping_add(1);
    }
    true
}

// Asserts that p(A) meets p(first), p(first + 1) and so on, so many of them.
fn expect_from(rt: &impl Abort, alloc: Global, file: &BangFile, a: Term, run: Run) {
    let pattern = compound_1(rt, alloc, b"p", a);
    let found = matches(rt, file, &pattern);
    assert_eq!(rt; found.len(), run.1);
    assert!(rt; are_from(found.as_slice(), run.0));
}

// p(X) meets p(0) to p(24) in both regions, in the order of their keys; p(7) meets itself alone,
// and p(25) none.
#[test]
fn a_pattern_meets_tuples_of_all_regions(rt: HostRuntime) {
    let alloc = rt.alloc();
    let file = first_file(&rt, alloc);
    expect_from(&rt, alloc, &file, Term::Var(0), (0, 25));
    expect_from(&rt, alloc, &file, Term::Int(7), (7, 1));
    expect_from(&rt, alloc, &file, Term::Int(25), (25, 0));
}
