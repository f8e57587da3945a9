//! Clauses that patterns meet: those with variables at keyed arguments among them, over several
//! regions, and in the order of clauses.
use crate::terms::{
    atom, compound_2, declared, insert_clause, matches, new_file, push, put_clause,
};
use ml_file::{BangFile, Put};
use ml_region::Id;
use ml_term::{Kind, Term};
use std::alloc::Global;
use std::process::Abort;

// The term price(a, b).
fn price(rt: &impl Abort, alloc: Global, a: Term, b: Term) -> Term {
    compound_2(rt, alloc, b"price", a, b)
}

// The number in the second argument of a clause's head.
fn price_in(clause: &Term) -> Option<i64> {
    match clause {
        Term::Cmp(_, parts) => match parts.as_slice().first() {
            Some(Term::Cmp(_, ts)) => match ts.as_slice() {
                [_, Term::Int(n)] => Some(*n),
                _ => None,
            },
            _ => None,
        },
        _ => None,
    }
}

// Asserts that price(a, b) meets the clauses of these prices, in this order.
fn expect(rt: &impl Abort, alloc: Global, file: &BangFile, a: Term, b: Term, wanted: &[i64]) {
    let head = price(rt, alloc, a, b);
    let found = matches(rt, file, &head);
    assert_eq!(rt; found.len(), wanted.len());
    for (clause, n) in found.iter().zip(wanted) {
        assert_eq!(rt; price_in(clause), Some(*n));
    }
}

// A variable, `apple` or `pear`, in turn.
fn good(rt: &impl Abort, alloc: Global, number: u32) -> Term {
    match number % 3 {
        0 => Term::Var(0),
        1 => atom(rt, alloc, b"apple"),
        _ => atom(rt, alloc, b"pear"),
    }
}

// The fact price(a, n), where a is a variable, `apple` or `pear`, in turn.
fn fact(rt: &impl Abort, alloc: Global, number: u32) -> Term {
    let good = good(rt, alloc, number);
    let head = price(rt, alloc, good, Term::Int(i64::from(number)));
    let body = atom(rt, alloc, b"true");
    compound_2(rt, alloc, b":-", head, body)
}

// The keyed arguments with which each test is made.
const KEYS: [&[u8]; 4] = [&[1], &[2], &[1, 2], &[2, 1]];

// A file without clauses of price/2, with these keyed arguments.
fn without_clauses(rt: &impl Abort, alloc: Global, keys: &[u8]) -> BangFile {
    new_file(
        rt,
        alloc,
        declared(rt, alloc, b"price", 2, Kind::Clauses, keys),
    )
}

// A fact comes, with its storage number.
fn insert(rt: &impl Abort, alloc: Global, file: &mut BangFile, price: u32, number: u64) {
    let clause = fact(rt, alloc, price);
    assert!(rt; insert_clause(rt, alloc, file, clause, number) == Put::Added);
}

// A file of price(X, 3), price(apple, 1) and price(pear, 2).
fn three(rt: &impl Abort, alloc: Global, keys: &[u8]) -> BangFile {
    let mut file = without_clauses(rt, alloc, keys);
    for (price, number) in [(3, 0), (1, 1), (2, 2)] {
        insert(rt, alloc, &mut file, price, number);
    }
    file
}

// A clause with a variable at the first argument is found beside those with the atom that is asked
// for.
#[test]
fn a_variable_as_key_fits_each_atom(rt: HostRuntime) {
    let alloc = rt.alloc();
    for keys in KEYS {
        let file = three(&rt, alloc, keys);
        expect(
            &rt,
            alloc,
            &file,
            atom(&rt, alloc, b"apple"),
            Term::Var(0),
            &[3, 1],
        );
        expect(
            &rt,
            alloc,
            &file,
            atom(&rt, alloc, b"pear"),
            Term::Var(0),
            &[3, 2],
        );
        expect(
            &rt,
            alloc,
            &file,
            atom(&rt, alloc, b"plum"),
            Term::Var(0),
            &[3],
        );
        expect(
            &rt,
            alloc,
            &file,
            atom(&rt, alloc, b"apple"),
            Term::Int(2),
            &[],
        );
    }
}

// What a variable asks for at the first argument.
#[test]
fn a_variable_asks_for_all_goods(rt: HostRuntime) {
    let alloc = rt.alloc();
    for keys in KEYS {
        let file = three(&rt, alloc, keys);
        expect(&rt, alloc, &file, Term::Var(0), Term::Var(1), &[3, 1, 2]);
        expect(&rt, alloc, &file, Term::Var(0), Term::Var(0), &[3]);
        expect(&rt, alloc, &file, Term::Var(0), Term::Int(2), &[2]);
    }
}

// A file of the facts of the prices 0 to 59 in more than one region, put in this order with falling
// storage numbers.
fn sixty(rt: &impl Abort, alloc: Global, keys: &[u8]) -> BangFile {
    let mut file = without_clauses(rt, alloc, keys);
    for price in 0..60u32 {
        insert(rt, alloc, &mut file, price, u64::from(59 - price));
    }
    assert!(rt; file.len() > 1);
    file
}

// The prices below 60 of variables and of apples.
fn apple_prices(rt: &impl Abort, alloc: Global) -> Vec<i64> {
    let mut prices = Vec::new(alloc);
    for price in 0..60i64 {
        if price % 3 != 2 {
            push(rt, &mut prices, price);
        }
    }
    prices
}

// Clauses of several regions are found in the order in which they came, against the order of their
// storage numbers.
#[test]
fn clauses_of_all_regions_keep_their_order(rt: HostRuntime) {
    let alloc = rt.alloc();
    let prices = apple_prices(&rt, alloc);
    for keys in KEYS {
        let file = sixty(&rt, alloc, keys);
        let apple = atom(&rt, alloc, b"apple");
        expect(&rt, alloc, &file, apple, Term::Var(0), prices.as_slice());
    }
}

// Puts the fact of a price, with the price as its storage number.
fn put(rt: &impl Abort, alloc: Global, file: &mut BangFile, price: u32, front: bool, id: Id) {
    let clause = fact(rt, alloc, price);
    let put = put_clause(rt, alloc, file, clause, u64::from(price), front, id);
    assert_eq!(rt; put, Put::Added);
}

// A file in more than one region of facts that were put first, of the prices 100 to 129, and
// others, of 200 to 229. Their ids rise with their prices, but they are put in another order.
fn with_front(rt: &impl Abort, alloc: Global, keys: &[u8]) -> BangFile {
    let mut file = without_clauses(rt, alloc, keys);
    for k in 0..30u32 {
        let n = k * 7 % 30;
        let id = Id {
            place: 1 + n / 10,
            change: n % 10,
        };
        put(rt, alloc, &mut file, 200 + n, false, id);
        put(rt, alloc, &mut file, 100 + n, true, id);
    }
    assert!(rt; file.len() > 1);
    file
}

// The prices of those put first, from the greatest down, and then the others from the least up.
fn front_prices(rt: &impl Abort, alloc: Global) -> Vec<i64> {
    let mut prices = Vec::new(alloc);
    for n in 0..30u32 {
        push(rt, &mut prices, i64::from(129 - n));
    }
    for n in 0..30u32 {
        push(rt, &mut prices, i64::from(200 + n));
    }
    prices
}

// Clauses that were put first come before all others, the latest first; the others come by their
// ids.
#[test]
fn clauses_put_first_come_latest_first(rt: HostRuntime) {
    let alloc = rt.alloc();
    let prices = front_prices(&rt, alloc);
    for keys in KEYS {
        let file = with_front(&rt, alloc, keys);
        expect(
            &rt,
            alloc,
            &file,
            Term::Var(0),
            Term::Var(1),
            prices.as_slice(),
        );
    }
}
