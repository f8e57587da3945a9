//! Stores from items.
ghost use Rattle.std.specs.Prelude.{IfOk, IsTrue};
ghost use Rattle.ml_search.specs.Db.{is_allowed};
ghost use Rattle.ml_search.specs.ItemsSeen.{items_seen};
ghost use Rattle.ml_search.specs.Loading.{are_items};
ghost use Rattle.ml_term.specs.Seen.{seen};

use crate::terms::{atom, compound_1, compound_2, declared, hits, is_clause, is_tuple};
use ml_file::{BangFile, MIN_REGION_ITEMS, OutOfMemory, Store};
use ml_region::{Id, Item};
use ml_search::{Decls, MAX_DECLARATIONS};
use ml_term::{Decl, Kind, Term};
use std::alloc::Global;
use std::process::Abort;

// Whether a declaration may have a term.
fn may_have(alloc: Global, decl: &Decl, t: &Term) -> Result<bool, OutOfMemory>
    ensures { IfOk result (λ may. IsTrue may → IsTrue (is_allowed decl.now (seen t.now))) }
{
    match decl.kind {
        Kind::Relation => Ok(is_tuple(t, decl)),
        Kind::Clauses => is_clause(alloc, t, decl),
    }
}

// Whether each item may stand in the list of the declaration at its place.
fn are_items(alloc: Global, decls: &Decls, items: &[(u32, Term)]) -> Result<bool, OutOfMemory>
    ensures { IfOk result (λ are. IsTrue are →
        IsTrue (are_items decls.now (items_seen items.now))) }
{
    for (place, t) in items {
        let place = *place as usize;
        if place >= decls.len() || !may_have(alloc, decls.at(place), t)? {
            return Ok(false);
        }
    }
    Ok(true)
}

// The store of some items.
fn load(rt: &impl Abort, alloc: Global, decls: &Decls, items: Vec<(u32, Term)>) -> Store {
    assert!(rt; are_items(alloc, decls, items.as_slice()).unwrap_or(false));
    assert!(rt; items.len() < 4294967296);
    Store::from_items(alloc, decls, items).expect(rt, "memory was refused")
}

// The declarations of the relation p/1 and of clauses of q/1.
fn two_declarations(rt: &impl Abort, alloc: Global) -> Decls {
    let mut decls = Decls::new(alloc);
    let relation = declared(rt, alloc, b"p", 1, Kind::Relation, &[1]);
    let clauses = declared(rt, alloc, b"q", 1, Kind::Clauses, &[1]);
    add(rt, &mut decls, relation);
    add(rt, &mut decls, clauses);
    decls
}

// Declares a predicate that isn't declared yet.
fn add(rt: &impl Abort, decls: &mut Decls, decl: Decl) {
    assert!(rt; decls.len() < MAX_DECLARATIONS);
    assert!(rt; decls.place_of(&decl.pred).is_none());
    assert!(rt; decls.add(decl).is_ok(), "memory was refused");
}

// The tuple p(n).
fn tuple(rt: &impl Abort, alloc: Global, number: i64) -> Term {
    compound_1(rt, alloc, b"p", Term::Int(number))
}

// The clause q(n) :- true.
fn clause(rt: &impl Abort, alloc: Global, number: i64) -> Term {
    let head = compound_1(rt, alloc, b"q", Term::Int(number));
    compound_2(rt, alloc, b":-", head, atom(rt, alloc, b"true"))
}

// An item comes to the end of a list.
fn push(rt: &impl Abort, items: &mut Vec<(u32, Term)>, place: u32, t: Term) {
    assert!(rt; items.push((place, t)).is_ok(), "memory was refused");
}

// The items of a file of a predicate of one argument that its general pattern meets.
fn all_items<'a>(rt: &impl Abort, alloc: Global, file: &'a BangFile, name: &[u8]) -> Vec<&'a Item> {
    hits(rt, file, &compound_1(rt, alloc, name, Term::Var(0)))
}

// The number of a term of one integer, or of the clause whose head is one.
fn number_of(t: &Term) -> Option<i64> {
    match t {
        Term::Cmp(_, ts) => match ts.as_slice() {
            [Term::Int(z)] => Some(*z),
            [Term::Cmp(_, us), _] => match us.as_slice() {
                [Term::Int(z)] => Some(*z),
                _ => None,
            },
            _ => None,
        },
        _ => None,
    }
}

// The store of four tuples and four clauses that come in turns.
fn eight_items(rt: &impl Abort, alloc: Global) -> Store {
    let mut items = Vec::new(alloc);
    for (tuple_number, clause_number) in [(3, 7), (1, 5), (3, 7), (2, 6)] {
        push(rt, &mut items, 0, tuple(rt, alloc, tuple_number));
        push(rt, &mut items, 1, clause(rt, alloc, clause_number));
    }
    let store = load(rt, alloc, &two_declarations(rt, alloc), items);
    assert_eq!(rt; store.files.len(), 2);
    store
}

// Tuples are in key order, and one that came twice is there once.
#[test]
fn a_tuple_that_comes_twice_is_there_once(rt: HostRuntime) {
    let alloc = rt.alloc();
    let store = eight_items(&rt, alloc);
    assert!(rt; store.files.len() > 0);
    let tuples = all_items(&rt, alloc, &store.files[0], b"p");
    assert_eq!(rt; tuples.len(), 3);
    for (item, wanted) in tuples.iter().zip([1, 2, 3]) {
        assert_eq!(rt; number_of(&item.term), Some(wanted));
    }
}

// Whether an item is the clause of a number that came at a place of its list.
fn is_clause_at(item: &Item, number: i64, place: u32) -> bool {
    let id = Id {
        place: 0,
        change: place,
    };
    number_of(&item.term) == Some(number)
        && item.id == id
        && item.number == u64::from(place)
        && item.committed
        && !item.front
}

// Clauses are in the order in which they came, each as often as it came.
#[test]
fn clauses_are_there_as_often_as_they_come(rt: HostRuntime) {
    let alloc = rt.alloc();
    let store = eight_items(&rt, alloc);
    assert!(rt; store.files.len() > 1);
    let clauses = all_items(&rt, alloc, &store.files[1], b"q");
    assert_eq!(rt; clauses.len(), 4);
    for (item, (place, number)) in clauses.iter().zip([(0, 7), (1, 5), (2, 7), (3, 6)]) {
        assert!(rt; is_clause_at(item, number, place));
    }
}

// The store of p(0) to p(59).
fn sixty_tuples(rt: &impl Abort, alloc: Global) -> Store {
    let mut items = Vec::new(alloc);
    for k in 0..60 {
        push(rt, &mut items, 0, tuple(rt, alloc, k));
    }
    let store = load(rt, alloc, &two_declarations(rt, alloc), items);
    assert_eq!(rt; store.files.len(), 2);
    store
}

// A file that gets many items has several regions, none of which is thin, and the other one is
// empty.
#[test]
fn files_of_many_items_are_split(rt: HostRuntime) {
    let alloc = rt.alloc();
    let store = sixty_tuples(&rt, alloc);
    assert!(rt; store.files.len() > 1);
    let file = &store.files[0];
    assert!(rt; file.len() > 1);
    for i in 1..file.len() {
        assert!(rt; file.count(i) >= MIN_REGION_ITEMS);
    }
    assert_eq!(rt; all_items(&rt, alloc, file, b"p").len(), 60);
    assert_eq!(rt; store.files[1].len(), 1);
    assert!(rt; all_items(&rt, alloc, &store.files[1], b"q").is_empty());
}

// No declarations, no files.
#[test]
fn a_store_without_declarations_has_no_files(rt: HostRuntime) {
    let alloc = rt.alloc();
    let store = load(&rt, alloc, &Decls::new(alloc), Vec::new(alloc));
    assert_eq!(rt; store.files.len(), 0);
}
