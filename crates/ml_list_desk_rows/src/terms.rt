//! Terms of tests, and tests at run time of what the list of a declaration may have. Where memory
//! is refused a test ends.
ghost use Rattle.std.specs.Prelude.{◌≡◌, ◌≤◌, IfOk, IfSome, IsTrue};
ghost use Rattle.ml_search.specs.Db.{is_stored_clause, is_tuple};
ghost use Rattle.ml_search.specs.Program.{clause_term, is_of};
ghost use Rattle.ml_term.specs.Seen.{seen};
ghost use Rattle.ml_term.specs.Tree.{is_numbered, nodes};
ghost use Rattle.ml_term.specs.Valid.{is_valid};

use ml_search::{MAX_ITEM_BYTES, is_callable, rename};
use ml_term::{
    Args, Decl, Keys, Kind, MAX_TERM_NODES, Name, Pred, Term, are_keys, canonical_cmp,
    canonical_len_up_to, is_ground, is_name, is_valid, nodes_up_to,
};
use std::alloc::{AllocError, Global};
use std::cmp::Ordering;
use std::process::Abort;

/// Why a test ends that needs memory.
pub const MEMORY: &str = "memory was refused";

/// The name of these bytes.
pub fn named(rt: &impl Abort, alloc: Global, bytes: &[u8]) -> Name {
    assert!(rt; is_name(bytes));
    Name::new(alloc, bytes).expect(rt, MEMORY)
}

/// An atom.
pub fn atom(rt: &impl Abort, alloc: Global, name: &[u8]) -> Term {
    Term::Atom(named(rt, alloc, name))
}

/// A compound of one argument.
pub fn compound_1(rt: &impl Abort, alloc: Global, name: &[u8], a: Term) -> Term {
    let name = named(rt, alloc, name);
    match vec![in alloc; a] {
        Ok(arguments) => Term::Cmp(name, Args::new(arguments)),
        Err(_) => panic!(rt; "{MEMORY}"),
    }
}

/// A compound of two arguments.
pub fn compound_2(rt: &impl Abort, alloc: Global, name: &[u8], a: Term, b: Term) -> Term {
    let name = named(rt, alloc, name);
    match vec![in alloc; a, b] {
        Ok(arguments) => Term::Cmp(name, Args::new(arguments)),
        Err(_) => panic!(rt; "{MEMORY}"),
    }
}

/// A declaration with these keyed arguments.
pub fn declared(
    rt: &impl Abort,
    alloc: Global,
    name: &[u8],
    arity: u8,
    kind: Kind,
    keys: &[u8],
) -> Decl {
    let pred = Pred {
        name: named(rt, alloc, name),
        arity,
    };
    assert!(rt; are_keys(arity, keys));
    Decl::new(pred, kind, Keys::new(alloc, keys).expect(rt, MEMORY))
}

/// Whether a term is a compound of a predicate.
pub fn is_of(t: &Term, pred: &Pred) -> bool
    ensures { IsTrue result → IsTrue (is_of pred.now.name pred.now.arity (seen t.now)) }
{
    match t {
        Term::Cmp(f, ts) => f.is(&pred.name) && ts.as_slice().len() == usize::from(pred.arity),
        _ => false,
    }
}

/// Whether a file of a declaration may be asked for what a term meets.
pub fn is_pattern(t: &Term, decl: &Decl) -> bool
    ensures declared { IsTrue result →
        IsTrue (is_of decl.now.pred.name decl.now.pred.arity (seen t.now)) }
    ensures valid { IsTrue result → IsTrue (is_valid (seen t.now)) }
    ensures small { IsTrue result → nodes (seen t.now) ≤ MAX_TERM_NODES }
{
    is_valid(t) && is_of(t, &decl.pred) && nodes_up_to(t, MAX_TERM_NODES) <= MAX_TERM_NODES
}

/// Whether a declaration may have a tuple, if it is one of a relation.
pub fn is_tuple(t: &Term, decl: &Decl) -> bool
    ensures { IsTrue result → IsTrue (is_tuple decl.now (seen t.now)) }
{
    is_valid(t)
        && is_of(t, &decl.pred)
        && is_ground(t)
        && canonical_len_up_to(t, MAX_ITEM_BYTES) <= MAX_ITEM_BYTES
}

// The head and the body of a clause's term.
fn parts(t: &Term) -> Option<(&Term, &Term)>
    ensures { IfSome result (λ p. seen t.now ≡ clause_term (seen p.0.now) (seen p.1.now)) }
{
    match t {
        Term::Cmp(f, ts) if f.as_slice() == b":-".as_slice() => match ts.as_slice() {
            [head, body] => Some((head, body)),
            _ => None,
        },
        _ => None,
    }
}

// Whether the variables of a small term are numbered from 0 by first place: it is then the same
// with new numbers.
fn is_numbered(alloc: Global, t: &Term) -> Result<bool, AllocError>
    requires valid { IsTrue (is_valid (seen t.now)) }
    requires small { nodes (seen t.now) ≤ MAX_TERM_NODES }
    ensures { IfOk result (λ numbered. IsTrue numbered → IsTrue (is_numbered (seen t.now))) }
{
    let numbered = rename(alloc, t, 0)?;
    Ok(canonical_cmp(t, &numbered) == Ordering::Equal)
}

/// Whether a declaration may have a clause, as a term of its head and body, if it is one of
/// clauses.
pub fn is_clause(alloc: Global, t: &Term, decl: &Decl) -> Result<bool, AllocError>
    ensures { IfOk result (λ may. IsTrue may → IsTrue (is_stored_clause decl.now (seen t.now))) }
{
    let Some((head, body)) = parts(t) else {
        return Ok(false);
    };
    if !is_of(head, &decl.pred) || !is_callable(body) {
        return Ok(false);
    }
    if !is_valid(t) || canonical_len_up_to(t, MAX_ITEM_BYTES) > MAX_ITEM_BYTES {
        return Ok(false);
    }
    if nodes_up_to(t, MAX_TERM_NODES) > MAX_TERM_NODES {
        return Ok(false);
    }
    is_numbered(alloc, t)
}
