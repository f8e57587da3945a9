//! Tests on the happy path: worked pairs of terms, and terms that are large, shared or deep.
ghost use Rattle.std.specs.Prelude.{◌<◌, IfOk};
ghost use Rattle.ml_heap.specs.Changes.{cell_count};

use ml_heap::{Heap, Look, Ref, TreeStop};
use ml_term::{Args, Name, Term, compare, is_valid};
use std::alloc::{AllocError, Global};
use std::cmp::Ordering;
use std::test::Fail;

// The atom `a`.
fn a(alloc: Global) -> Result<Term, AllocError> {
    Ok(Term::Atom(Name::new(alloc, b"a")?))
}

// The atom `b`.
fn b(alloc: Global) -> Result<Term, AllocError> {
    Ok(Term::Atom(Name::new(alloc, b"b")?))
}

// The compound of one name and two arguments.
fn two(alloc: Global, t: Term, u: Term) -> Result<Term, AllocError> {
    let name = Name::new(alloc, b"f")?;
    Ok(Term::Cmp(name, Args::new(vec![in alloc; t, u]?)))
}

// The compound of one name and one argument.
fn one(alloc: Global, t: Term) -> Result<Term, AllocError> {
    let name = Name::new(alloc, b"s")?;
    Ok(Term::Cmp(name, Args::new(vec![in alloc; t]?)))
}

// `f(f(T, b), f(a, U))`.
fn worked(alloc: Global, t: Term, u: Term) -> Result<Term, AllocError> {
    let left = two(alloc, t, b(alloc)?)?;
    let right = two(alloc, a(alloc)?, u)?;
    two(alloc, left, right)
}

// The compound of two arguments after these were unified, if they have a unifier.
fn unified(alloc: Global, pair: &Term) -> Result<Option<Term>, AllocError> {
    if !is_valid(pair) {
        return Ok(None);
    }
    let mut heap = Heap::new(alloc);
    let at = heap.store_tree(pair)?;
    let Look::Cmp(_, 2) = heap.look(at) else {
        return Ok(None);
    };
    let (first, second) = (heap.arg(at, 0), heap.arg(at, 1));
    if !heap.unify(first, second)? {
        return Ok(None);
    }
    Ok(heap.tree_at(at).ok())
}

// Whether a term was had, and is the one that was wanted.
fn is(had: &Option<Term>, wanted: &Term) -> bool {
    match had {
        Some(term) => compare(term, wanted) == Ordering::Equal,
        None => false,
    }
}

#[test]
fn compounds_of_one_name_give_each_other_their_arguments(rt: HostRuntime) -> Result<(), Fail> {
    let alloc = rt.alloc();
    let pair = worked(alloc, Term::Var(0), Term::Var(1))?;
    let wanted = worked(alloc, a(alloc)?, b(alloc)?)?;
    let had = unified(alloc, &pair)?;
    assert!(rt; is(&had, &wanted));
    Ok(())
}

#[test]
fn a_variable_that_occurs_in_a_term_has_no_unifier_with_it(rt: HostRuntime) -> Result<(), Fail> {
    let alloc = rt.alloc();
    let pair = two(alloc, Term::Var(0), one(alloc, Term::Var(0))?)?;
    assert!(rt; unified(alloc, &pair)?.is_none());
    let clash = two(alloc, a(alloc)?, b(alloc)?)?;
    assert!(rt; unified(alloc, &clash)?.is_none());
    Ok(())
}

#[test]
fn the_younger_of_two_variables_is_replaced_by_the_older(rt: HostRuntime) -> Result<(), Fail> {
    let alloc = rt.alloc();
    let pair = two(alloc, one(alloc, Term::Var(4))?, one(alloc, Term::Var(2))?)?;
    let wanted = two(alloc, one(alloc, Term::Var(0))?, one(alloc, Term::Var(0))?)?;
    let had = unified(alloc, &pair)?;
    assert!(rt; is(&had, &wanted));
    Ok(())
}

// A term of so many nodes, each the only argument of the one before.
fn deep(alloc: Global, nodes: u32) -> Result<Term, AllocError> {
    let mut term = Term::Int(0);
    for _ in 1..nodes {
        term = one(alloc, term)?;
    }
    Ok(term)
}

// What is had of a term that was stored.
fn stored(alloc: Global, term: &Term) -> Result<Result<Term, TreeStop>, AllocError> {
    let mut heap = Heap::new(alloc);
    let _older = heap.new_var()?;
    if !is_valid(term) {
        return Err(AllocError);
    }
    let at = heap.store_tree(term)?;
    Ok(heap.tree_at(at))
}

#[test]
fn a_stored_term_has_new_variables_by_first_place(rt: HostRuntime) -> Result<(), Fail> {
    let alloc = rt.alloc();
    let term = two(alloc, Term::Var(7), two(alloc, Term::Var(3), Term::Var(7))?)?;
    let wanted = two(alloc, Term::Var(1), two(alloc, Term::Var(2), Term::Var(1))?)?;
    let had = stored(alloc, &term)?.ok();
    assert!(rt; is(&had, &wanted));
    Ok(())
}

#[test]
fn a_term_of_4096_nodes_is_taken_out_and_a_larger_one_is_not(rt: HostRuntime) -> Result<(), Fail> {
    let alloc = rt.alloc();
    let term = deep(alloc, 4096)?;
    let had = stored(alloc, &term)?.ok();
    assert!(rt; is(&had, &term));
    let larger = one(alloc, term)?;
    assert!(rt; matches!(stored(alloc, &larger)?, Err(TreeStop::TooLarge)));
    Ok(())
}

// A term of two arguments that are one cell, so many times over.
fn doubled(alloc: Global, heap: &mut Heap, times: u32) -> Result<Ref, AllocError>
    ensures { IfOk result (λ r. r < cell_count heap.new) }
{
    let name = Name::new(alloc, b"f")?;
    let mut at = heap.new_int(7)?;
    for _ in 0..times {
        at = heap.new_cmp(&name, &[at, at])?;
    }
    Ok(at)
}

#[test]
fn a_shared_term_is_too_large_by_its_nodes(rt: HostRuntime) -> Result<(), Fail> {
    let alloc = rt.alloc();
    let mut heap = Heap::new(alloc);
    let small = doubled(alloc, &mut heap, 11)?;
    assert!(rt; heap.tree_at(small).is_ok());
    let large = doubled(alloc, &mut heap, 60)?;
    assert!(rt; matches!(heap.tree_at(large), Err(TreeStop::TooLarge)));
    Ok(())
}

// A list of so many variables.
fn variables(alloc: Global, heap: &mut Heap, count: u32) -> Result<Ref, AllocError>
    ensures { IfOk result (λ r. r < cell_count heap.new) }
{
    let dot = Name::new(alloc, b".")?;
    let mut list = heap.new_int(7)?;
    for _ in 0..count {
        let element = heap.new_var()?;
        list = heap.new_cmp(&dot, &[element, list])?;
    }
    Ok(list)
}

#[test]
fn a_long_list_needs_no_deep_recursion(rt: HostRuntime) -> Result<(), Fail> {
    let alloc = rt.alloc();
    let mut heap = Heap::new(alloc);
    let list = variables(alloc, &mut heap, 200000)?;
    let younger = heap.new_var()?;
    assert!(rt; heap.unify(younger, list)?);
    assert!(rt; matches!(heap.look(younger), Look::Cmp(_, 2)));
    Ok(())
}
