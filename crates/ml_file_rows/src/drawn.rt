//! A file does as a plain list does, through a long run of inserts, removes, matches and settlings
//! that a generator draws.
use crate::terms::{compound_2, declared, insert_tuple, matches, new_file, tuple_key};
use ml_bits::Bits;
use ml_file::{BangFile, MAX_REGION_ITEMS, MIN_REGION_ITEMS, Put, Took};
use ml_term::{Kind, Term};
use std::alloc::Global;
use std::cmp::Ordering;
use std::process::Abort;

// How many steps the run has.
const STEPS: u32 = 20000;

// How many steps the file mostly grows, and how many it then mostly shrinks.
const PHASE: u32 = 2500;

// How many values an argument has.
const VALUES: u64 = 40;

// The numbers that are drawn: those of a linear congruence, from a fixed seed.
#[derive(Drop)]
struct Draws {
    state: u64,
}

impl Draws {
    // A number below a limit that is above 0.
    fn below(&mut self, limit: u64) -> u64 {
        let next = self
            .state
            .wrapping_mul(6364136223846793005)
            .wrapping_add(1442695040888963407);
        self.state = next;
        (next >> 33) % limit.max(1)
    }

    // One of the integers that arguments have: some lie close together, and others far apart.
    fn integer(&mut self) -> i64 {
        let value = self.below(VALUES).cast_signed();
        match value % 3 {
            0 => value,
            1 => value.wrapping_mul(50000000000000000),
            _ => value.wrapping_mul(-50000000000000000),
        }
    }

    // What a match asks of an argument, where a variable has a given number.
    fn asked(&mut self, variable: u32) -> Asked {
        if self.below(2) == 0 {
            Asked::Variable(variable)
        } else {
            Asked::Value(self.integer())
        }
    }
}

// What a match asks of an argument.
#[derive(Clone, Copy)]
enum Asked {
    // An integer.
    Value(i64),
    // A variable by its number.
    Variable(u32),
}

impl Asked {
    // The term that asks it.
    fn term(self) -> Term {
        match self {
            Asked::Value(value) => Term::Int(value),
            Asked::Variable(n) => Term::Var(n),
        }
    }
}

// Whether a tuple has the arguments that are asked for.
fn meets(first: Asked, second: Asked, tuple: (i64, i64)) -> bool {
    let (a, b) = tuple;
    match (first, second) {
        (Asked::Value(x), Asked::Value(y)) => x == a && y == b,
        (Asked::Value(x), Asked::Variable(_)) => x == a,
        (Asked::Variable(_), Asked::Value(y)) => y == b,
        (Asked::Variable(m), Asked::Variable(n)) => m != n || a == b,
    }
}

// The order of two tuples by their keys, in which the bits of both arguments take turns: that of
// the argument which differs at the higher bit, and of the first one where both differ at the same
// bit.
fn key_order(x: (i64, i64), y: (i64, i64)) -> Ordering {
    let first = x.0 ^ y.0;
    let second = x.1 ^ y.1;
    if first.leading_zeros() <= second.leading_zeros() {
        x.0.cmp(&y.0).then(x.1.cmp(&y.1))
    } else {
        x.1.cmp(&y.1)
    }
}

// The integers of a tuple.
fn integers(t: &Term) -> Option<(i64, i64)> {
    match t {
        Term::Cmp(_, ts) => match ts.as_slice() {
            [Term::Int(a), Term::Int(b)] => Some((*a, *b)),
            _ => None,
        },
        _ => None,
    }
}

// The term t(A, B).
fn term(rt: &impl Abort, alloc: Global, first: Term, second: Term) -> Term {
    compound_2(rt, alloc, b"t", first, second)
}

// The tuple of two integers.
fn tuple_of(rt: &impl Abort, alloc: Global, pair: (i64, i64)) -> Term {
    term(rt, alloc, Term::Int(pair.0), Term::Int(pair.1))
}

// Puts a pair into a list at a place.
fn insert_at(rt: &impl Abort, list: &mut Vec<(i64, i64)>, place: usize, pair: (i64, i64)) {
    assert!(rt; place <= list.len());
    assert!(rt; list.insert(place, pair).is_ok(), "memory was refused");
}

// Takes the pair at a place out of a list.
fn remove_at(rt: &impl Abort, list: &mut Vec<(i64, i64)>, place: usize) {
    assert!(rt; place < list.len());
    let _pair = list.remove(place);
}

// Takes the item that has a key out of a file, which has it.
fn remove_present(rt: &impl Abort, file: &mut BangFile, key: &Bits) {
    assert!(rt; file.at(key).is_some());
    assert_eq!(rt; file.remove(key), Took::Removed);
    assert!(rt; file.at(key).is_none());
}

// A file of the relation t/2, and the plain list that it is to be like: its tuples in key order.
#[derive(Drop)]
struct Twins {
    file: BangFile,
    list: Vec<(i64, i64)>,
}

impl Twins {
    // Both without tuples.
    fn new(rt: &impl Abort, alloc: Global) -> Twins {
        let relation = declared(rt, alloc, b"t", 2, Kind::Relation, [1, 2].as_slice());
        Twins {
            file: new_file(rt, alloc, relation),
            list: Vec::new(alloc),
        }
    }

    // The first place in the list whose tuple doesn't come before a given one.
    fn place(&self, pair: (i64, i64)) -> usize {
        for (i, other) in self.list.iter().enumerate() {
            if key_order(*other, pair) != Ordering::Less {
                return i;
            }
        }
        self.list.len()
    }

    // A tuple comes to both.
    fn insert(&mut self, rt: &impl Abort, alloc: Global, pair: (i64, i64)) {
        let put = insert_tuple(rt, &mut self.file, tuple_of(rt, alloc, pair));
        let place = self.place(pair);
        if self.list.get(place) == Some(&pair) {
            assert_eq!(rt; put, Put::Present);
        } else {
            assert_eq!(rt; put, Put::Added);
            insert_at(rt, &mut self.list, place, pair);
        }
    }

    // A tuple is taken out of both.
    fn remove(&mut self, rt: &impl Abort, alloc: Global, pair: (i64, i64)) {
        let tuple = tuple_of(rt, alloc, pair);
        let key = tuple_key(rt, alloc, &self.file, &tuple);
        let place = self.place(pair);
        if self.list.get(place) == Some(&pair) {
            remove_present(rt, &mut self.file, &key);
            remove_at(rt, &mut self.list, place);
        } else {
            assert_eq!(rt; self.file.remove(&key), Took::Absent);
        }
    }

    // Both are asked for tuples: they give the same ones in the same order.
    fn ask(&self, rt: &impl Abort, alloc: Global, first: Asked, second: Asked) {
        let head = term(rt, alloc, first.term(), second.term());
        let found = matches(rt, &self.file, &head);
        let mut count = 0;
        for pair in self.list.iter() {
            if meets(first, second, *pair) {
                assert!(rt; count < found.len());
                assert!(rt; integers(&found[count]) == Some(*pair));
                count += 1;
            }
        }
        assert_eq!(rt; count, found.len());
    }

    // No region has too many items, and none too few if that is asked for; together they have as
    // many as the list.
    fn check(&self, rt: &impl Abort, settled: bool) {
        let mut items = 0usize;
        for i in 0..self.file.len() {
            let count = self.file.count(i);
            assert!(rt; count <= MAX_REGION_ITEMS);
            assert!(rt; !settled || i == 0 || count >= MIN_REGION_ITEMS);
            items = items.saturating_add(count);
        }
        assert_eq!(rt; items, self.list.len());
    }
}

// One step of the run, which mostly grows or mostly shrinks the file.
fn step(rt: &impl Abort, alloc: Global, twins: &mut Twins, draws: &mut Draws, grows: bool) {
    let kind = draws.below(100);
    let pair = (draws.integer(), draws.integer());
    if kind < 1 {
        twins.file.settle_all();
        twins.check(rt, true);
    } else if kind < 5 {
        ask_drawn(rt, alloc, twins, draws);
    } else if (kind < 75) == grows {
        twins.insert(rt, alloc, pair);
    } else {
        twins.remove(rt, alloc, pair);
    }
    twins.check(rt, false);
}

// Asks for what is drawn; two variables are one or two.
fn ask_drawn(rt: &impl Abort, alloc: Global, twins: &Twins, draws: &mut Draws) {
    let first = draws.asked(0);
    let other = if draws.below(2) == 0 { 0 } else { 1 };
    let second = draws.asked(other);
    twins.ask(rt, alloc, first, second);
}

// A file and a plain list agree through a long drawn run, in which the file has over 30 regions at
// times.
#[test]
fn does_as_a_plain_list(rt: HostRuntime) {
    let alloc = rt.alloc();
    let mut twins = Twins::new(&rt, alloc);
    let mut draws = Draws { state: 25 };
    let mut most = 0;
    for i in 0..STEPS {
        step(&rt, alloc, &mut twins, &mut draws, i / PHASE % 2 == 0);
        most = most.max(twins.file.len());
    }
    twins.file.settle_all();
    twins.check(&rt, true);
    twins.ask(&rt, alloc, Asked::Variable(0), Asked::Variable(1));
    assert!(rt; most > 30, "{most}");
}
