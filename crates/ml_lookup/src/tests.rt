//! Each call that takes memory, once.
ghost use Rattle.std.specs.Prelude.{◌≡◌, ◌≤◌, IsTrue};
ghost use Rattle.ml_search.specs.Db.{is_allowed};
ghost use Rattle.ml_search.specs.Program.{is_of};
ghost use Rattle.ml_term.specs.Seen.{seen};
ghost use Rattle.ml_term.specs.Tree.{nodes};
ghost use Rattle.ml_term.specs.Valid.{is_valid};

use crate::{needed, next_after, would_split};
use ml_bits::Bits;
use ml_file::{BangFile, Put};
use ml_search::MAX_ITEM_BYTES;
use ml_term::{
    Args, Decl, Keys, Kind, MAX_TERM_NODES, Name, Pred, Term, are_keys, canonical_len_up_to,
    is_ground, is_name, is_valid, nodes_up_to,
};
use std::alloc::{AllocError, Global};
use std::process::Abort;
use std::test::Fail;

// The name p.
fn name(rt: &impl Abort, alloc: Global) -> Result<Name, AllocError> {
    assert!(rt; is_name(b"p"));
    Name::new(alloc, b"p")
}

// The relation p/1.
fn relation(rt: &impl Abort, alloc: Global) -> Result<Decl, AllocError> {
    assert!(rt; are_keys(1, &[1]));
    let keys = Keys::new(alloc, &[1])?;
    let pred = Pred {
        name: name(rt, alloc)?,
        arity: 1,
    };
    Ok(Decl::new(pred, Kind::Relation, keys))
}

// The tuple p(7).
fn tuple(rt: &impl Abort, alloc: Global) -> Result<Term, AllocError> {
    let arguments = vec![in alloc; Term::Int(7)]?;
    Ok(Term::Cmp(name(rt, alloc)?, Args::new(arguments)))
}

// Whether a term is a compound of a predicate.
fn is_of(t: &Term, pred: &Pred) -> bool
    ensures { IsTrue result → IsTrue (is_of pred.now.name pred.now.arity (seen t.now)) }
{
    match t {
        Term::Cmp(f, ts) => f.is(&pred.name) && ts.as_slice().len() == usize::from(pred.arity),
        _ => false,
    }
}

// Whether a declaration is one of a relation that may have a tuple.
fn is_tuple(t: &Term, decl: &Decl) -> bool
    ensures relation { IsTrue result → decl.now.kind ≡ Kind.Relation }
    ensures allowed { IsTrue result → IsTrue (is_allowed decl.now (seen t.now)) }
    ensures declared { IsTrue result →
        IsTrue (is_of decl.now.pred.name decl.now.pred.arity (seen t.now)) }
    ensures valid { IsTrue result → IsTrue (is_valid (seen t.now)) }
    ensures small { IsTrue result → nodes (seen t.now) ≤ MAX_TERM_NODES }
{
    if decl.kind != Kind::Relation {
        return false;
    }
    is_valid(t)
        && is_of(t, &decl.pred)
        && is_ground(t)
        && canonical_len_up_to(t, MAX_ITEM_BYTES) <= MAX_ITEM_BYTES
        && nodes_up_to(t, MAX_TERM_NODES) <= MAX_TERM_NODES
}

// A tuple that comes to a new file is the first one, and its pattern needs the one prefix.
#[test]
fn a_tuple_that_comes_is_the_first_one(rt: HostRuntime) -> Result<(), Fail> {
    let alloc = rt.alloc();
    let t = tuple(&rt, alloc)?;
    let mut file = BangFile::new(alloc, relation(&rt, alloc)?)?;
    assert!(rt; is_tuple(&t, file.decl()));
    assert_eq!(rt; file.insert(t.copy_of(alloc)?, 0)?, Put::Added);
    assert_eq!(rt; needed(&file, &t)?.len(), 1);
    assert!(rt; next_after(&file, &t, None)?.is_some());
    Ok(())
}

// Nothing would split a new file.
#[test]
fn a_new_file_has_room(rt: HostRuntime) -> Result<(), Fail> {
    let alloc = rt.alloc();
    let file = BangFile::new(alloc, relation(&rt, alloc)?)?;
    assert!(rt; would_split(&file, &Bits::empty(alloc))?.is_none());
    Ok(())
}
