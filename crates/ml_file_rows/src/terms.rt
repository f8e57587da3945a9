//! Terms of tests, and tests at run time of what the calls of a file require. A test asserts one of
//! these before such a call. Where memory is refused a test ends.
ghost use Rattle.std.specs.Prelude.{◌≡◌, ◌≢◌, ◌<◌, ◌≤◌, IfOk, IfSome, IsTrue, length};
ghost use Rattle.std.specs.List.{All};
ghost use Rattle.ml_file.specs.Files.{items_in};
ghost use Rattle.ml_region.specs.Regions.{items_at};
ghost use Rattle.ml_region.specs.declared.item.Item.{Item};
ghost use Rattle.ml_search.specs.Db.{is_allowed};
ghost use Rattle.ml_search.specs.Program.{clause_term, is_of};
ghost use Rattle.ml_term.specs.Seen.{seen};
ghost use Rattle.ml_term.specs.Tree.{is_numbered, nodes};
ghost use Rattle.ml_term.specs.Valid.{is_valid};

use ml_bits::Bits;
use ml_file::{BangFile, OutOfMemory, Put};
use ml_key::key_of;
use ml_region::{Id, Item};
use ml_search::{MAX_ITEM_BYTES, is_callable, rename};
use ml_term::{
    Args, Decl, Keys, Kind, MAX_TERM_NODES, Name, Pred, Term, are_keys, canonical_cmp,
    canonical_len_up_to, is_ground, is_name, is_valid, nodes_up_to,
};
use std::alloc::Global;
use std::cmp::Ordering;
use std::process::Abort;

// Why a test ends that needs memory.
const MEMORY: &str = "memory was refused";

/// The name of these bytes.
pub fn named(rt: &impl Abort, alloc: Global, bytes: &[u8]) -> Name {
    assert!(rt; is_name(bytes));
    Name::new(alloc, bytes).expect(rt, MEMORY)
}

/// An atom.
pub fn atom(rt: &impl Abort, alloc: Global, name: &[u8]) -> Term {
    Term::Atom(named(rt, alloc, name))
}

/// A compound of one argument.
pub fn compound_1(rt: &impl Abort, alloc: Global, name: &[u8], a: Term) -> Term {
    let name = named(rt, alloc, name);
    match vec![in alloc; a] {
        Ok(arguments) => Term::Cmp(name, Args::new(arguments)),
        Err(_) => panic!(rt; "{MEMORY}"),
    }
}

/// A compound of two arguments.
pub fn compound_2(rt: &impl Abort, alloc: Global, name: &[u8], a: Term, b: Term) -> Term {
    let name = named(rt, alloc, name);
    match vec![in alloc; a, b] {
        Ok(arguments) => Term::Cmp(name, Args::new(arguments)),
        Err(_) => panic!(rt; "{MEMORY}"),
    }
}

/// A declaration with these keyed arguments.
pub fn declared(
    rt: &impl Abort,
    alloc: Global,
    name: &[u8],
    arity: u8,
    kind: Kind,
    keys: &[u8],
) -> Decl {
    let pred = Pred {
        name: named(rt, alloc, name),
        arity,
    };
    assert!(rt; are_keys(arity, keys));
    Decl::new(pred, kind, Keys::new(alloc, keys).expect(rt, MEMORY))
}

/// A file without items.
pub fn new_file(rt: &impl Abort, alloc: Global, decl: Decl) -> BangFile {
    BangFile::new(alloc, decl).expect(rt, MEMORY)
}

/// Whether a term is a compound of a predicate.
pub fn is_of(t: &Term, pred: &Pred) -> bool
    ensures { IsTrue result → IsTrue (is_of pred.now.name pred.now.arity (seen t.now)) }
{
    match t {
        Term::Cmp(f, ts) => f.is(&pred.name) && ts.as_slice().len() == usize::from(pred.arity),
        _ => false,
    }
}

/// Whether a file of a declaration may be asked for what a term meets.
pub fn is_pattern(t: &Term, decl: &Decl) -> bool
    ensures declared { IsTrue result →
        IsTrue (is_of decl.now.pred.name decl.now.pred.arity (seen t.now)) }
    ensures valid { IsTrue result → IsTrue (is_valid (seen t.now)) }
    ensures small { IsTrue result → nodes (seen t.now) ≤ MAX_TERM_NODES }
{
    is_valid(t) && is_of(t, &decl.pred) && nodes_up_to(t, MAX_TERM_NODES) <= MAX_TERM_NODES
}

/// Whether a declaration is one of a relation that may have a tuple.
pub fn is_tuple(t: &Term, decl: &Decl) -> bool
    ensures relation { IsTrue result → decl.now.kind ≡ Kind.Relation }
    ensures allowed { IsTrue result → IsTrue (is_allowed decl.now (seen t.now)) }
{
    if decl.kind != Kind::Relation {
        return false;
    }
    is_valid(t)
        && is_of(t, &decl.pred)
        && is_ground(t)
        && canonical_len_up_to(t, MAX_ITEM_BYTES) <= MAX_ITEM_BYTES
}

// The head and the body of a clause's term.
fn parts(t: &Term) -> Option<(&Term, &Term)>
    ensures { IfSome result (λ p. seen t.now ≡ clause_term (seen p.0.now) (seen p.1.now)) }
{
    match t {
        Term::Cmp(f, ts) if f.as_slice() == b":-".as_slice() => match ts.as_slice() {
            [head, body] => Some((head, body)),
            _ => None,
        },
        _ => None,
    }
}

// Whether the variables of a small term are numbered from 0 by first place: it is then the same
// with new numbers.
fn is_numbered(alloc: Global, t: &Term) -> Result<bool, OutOfMemory>
    requires valid { IsTrue (is_valid (seen t.now)) }
    requires small { nodes (seen t.now) ≤ MAX_TERM_NODES }
    ensures { IfOk result (λ numbered. IsTrue numbered → IsTrue (is_numbered (seen t.now))) }
{
    let numbered = rename(alloc, t, 0)?;
    Ok(canonical_cmp(t, &numbered) == Ordering::Equal)
}

/// Whether a declaration is one of clauses that may have a clause, as a term of its head and body.
pub fn is_clause(alloc: Global, t: &Term, decl: &Decl) -> Result<bool, OutOfMemory>
    ensures { IfOk result (λ may. IsTrue may → IsTrue (is_allowed decl.now (seen t.now))) }
{
    if decl.kind != Kind::Clauses {
        return Ok(false);
    }
    let Some((head, body)) = parts(t) else {
        return Ok(false);
    };
    if !is_of(head, &decl.pred) || !is_callable(body) {
        return Ok(false);
    }
    if !is_valid(t) || canonical_len_up_to(t, MAX_ITEM_BYTES) > MAX_ITEM_BYTES {
        return Ok(false);
    }
    if nodes_up_to(t, MAX_TERM_NODES) > MAX_TERM_NODES {
        return Ok(false);
    }
    is_numbered(alloc, t)
}

// Whether no item of a region has a number.
fn is_new_in(file: &BangFile, i: usize, number: u64) -> bool
    requires { i < length file.now.regions }
    ensures { IsTrue result → All (λ (x : Item). x.number ≢ number) (items_at file.now.regions i) }
{
    for j in 0..file.count(i) {
        if file.item(i, j).number == number {
            return false;
        }
    }
    true
}

/// Whether no item of a file has a number.
pub fn is_new(file: &BangFile, number: u64) -> bool
    ensures { IsTrue result → All (λ (x : Item). x.number ≢ number) (items_in file.now.regions) }
{
    for i in 0..file.len() {
        if !is_new_in(file, i, number) {
            return false;
        }
    }
    true
}

/// Inserts a tuple into a file of a relation.
pub fn insert_tuple(rt: &impl Abort, file: &mut BangFile, t: Term) -> Put {
    assert!(rt; is_tuple(&t, file.decl()));
    file.insert(t, 0).expect(rt, MEMORY)
}

/// The key of a tuple of a file.
pub fn tuple_key(rt: &impl Abort, alloc: Global, file: &BangFile, t: &Term) -> Bits {
    assert!(rt; is_tuple(t, file.decl()));
    key_of(alloc, file.decl(), t, 0).expect(rt, MEMORY)
}

/// Inserts a clause into a file of clauses, with its storage number.
pub fn insert_clause(
    rt: &impl Abort,
    alloc: Global,
    file: &mut BangFile,
    t: Term,
    number: u64,
) -> Put {
    assert!(rt; is_clause(alloc, &t, file.decl()).expect(rt, MEMORY));
    assert!(rt; is_new(file, number));
    file.insert(t, number).expect(rt, MEMORY)
}

/// Puts a clause into a file of clauses: before all others, or behind those of lesser ids.
pub fn put_clause(
    rt: &impl Abort,
    alloc: Global,
    file: &mut BangFile,
    t: Term,
    number: u64,
    front: bool,
    id: Id,
) -> Put {
    assert!(rt; is_clause(alloc, &t, file.decl()).expect(rt, MEMORY));
    assert!(rt; is_new(file, number));
    let key = key_of(alloc, file.decl(), &t, number).expect(rt, MEMORY);
    let item = Item {
        key,
        term: t,
        number,
        committed: true,
        front,
        id,
    };
    file.put(item).expect(rt, MEMORY)
}

/// The terms of a file that a pattern meets.
pub fn matches(rt: &impl Abort, file: &BangFile, pattern: &Term) -> Vec<Term> {
    assert!(rt; is_pattern(pattern, file.decl()));
    file.matches(pattern).expect(rt, MEMORY)
}

/// The items of a file that a pattern meets.
pub fn hits<'a>(rt: &impl Abort, file: &'a BangFile, pattern: &Term) -> Vec<&'a Item> {
    assert!(rt; is_pattern(pattern, file.decl()));
    file.hits(pattern).expect(rt, MEMORY)
}

/// A list with one more integer.
pub fn push(rt: &impl Abort, list: &mut Vec<i64>, n: i64) {
    assert!(rt; list.push(n).is_ok(), "{MEMORY}");
}
