//! What the built-ins that change lists come to for arguments of each kind: each is called once
//! with each.
ghost use Rattle.std.specs.Prelude.{◌≡◌, ◌<◌, ◌≤◌, IfOk, OnOk};
ghost use Rattle.ml_heap.specs.Changes.{cell_count};

use ml_heap::{Heap, Ref};
use ml_program::{Loaded, StoreCall};
use ml_search::{Clauses, Decls, MAX_DECLARATIONS, Op, Program};
use ml_store_goals::{StoreGoal, store_goal};
use ml_term::{Decl, Kind, Name, Pred, Term, is_name};
use std::alloc::{AllocError, Global};
use std::process::Abort;
use std::test::Fail;

// What a goal comes to, in brief.
#[derive(Clone, Copy)]
enum Outcome {
    Instantiation,
    NotCallable,
    Unknown,
    NotPermitted,
    TooLarge,
    TooLong,
    Inserts,
    Deletes,
    PutsFirst,
    PutsLast,
    TakesOut,
    Other,
}

// What each built-in comes to.
#[derive(Clone, Copy)]
struct Outcomes {
    insert: Outcome,
    delete: Outcome,
    asserta: Outcome,
    assertz: Outcome,
    retract: Outcome,
}

// The outcome of a limit by its name.
fn limit(t: &Term) -> Outcome {
    match t {
        Term::Atom(f) if f.as_slice() == b"term".as_slice() => Outcome::TooLarge,
        Term::Atom(f) if f.as_slice() == b"item".as_slice() => Outcome::TooLong,
        _ => Outcome::Other,
    }
}

// The outcome of an error by its name.
fn error(name: &[u8], args: &[Term]) -> Outcome {
    if name == b"type_error".as_slice() {
        Outcome::NotCallable
    } else if name == b"existence_error".as_slice() {
        Outcome::Unknown
    } else if name == b"permission_error".as_slice() {
        Outcome::NotPermitted
    } else {
        match args {
            [t] => limit(t),
            _ => Outcome::Other,
        }
    }
}

// The outcome of a raised term.
fn raised(t: &Term) -> Outcome {
    match t {
        Term::Atom(_) => Outcome::Instantiation,
        Term::Cmp(f, ts) => error(f.as_slice(), ts.as_slice()),
        _ => Outcome::Other,
    }
}

// The outcome of an operation, and whether a list must change.
fn asked(op: &Op, must_change: bool) -> Outcome {
    match op {
        Op::Insert(_) if !must_change => Outcome::Inserts,
        Op::Delete(_) if must_change => Outcome::Deletes,
        Op::Asserta(_) if !must_change => Outcome::PutsFirst,
        Op::Assertz(_) if !must_change => Outcome::PutsLast,
        _ => Outcome::Other,
    }
}

// The outcome of a goal.
fn outcome_of(goal: &StoreGoal) -> Outcome {
    match goal {
        StoreGoal::Raise(t) => raised(t),
        StoreGoal::Change { op, must_change } => asked(op, *must_change),
        StoreGoal::Retract { .. } => Outcome::TakesOut,
    }
}

// What a call of one built-in comes to.
fn called(
    program: &Loaded,
    call: StoreCall,
    heap: &mut Heap,
    at: Ref,
) -> Result<Outcome, AllocError>
    requires { at < cell_count heap.old }
    ensures { OnOk result (cell_count heap.old ≤ cell_count heap.new) }
{
    let goal = store_goal(program, call, heap, at)?;
    Ok(outcome_of(&goal))
}

// What calls of all of them come to.
fn call_all(program: &Loaded, heap: &mut Heap, at: Ref) -> Result<Outcomes, AllocError>
    requires { at < cell_count heap.old }
{
    Ok(Outcomes {
        insert: called(program, StoreCall::InsertTuple, heap, at)?,
        delete: called(program, StoreCall::DeleteTuple, heap, at)?,
        asserta: called(program, StoreCall::Asserta, heap, at)?,
        assertz: called(program, StoreCall::Assertz, heap, at)?,
        retract: called(program, StoreCall::Retract, heap, at)?,
    })
}

// Declares a predicate of one argument.
fn declare(alloc: Global, decls: &mut Decls, name: Name, kind: Kind) -> Result<(), AllocError> {
    let pred = Pred { name, arity: 1 };
    if decls.place_of(&pred).is_some() || decls.len() >= MAX_DECLARATIONS {
        return Err(AllocError);
    }
    decls.add(Decl::with_default_keys(alloc, pred, kind)?)
}

// A program with the relation `r/1` and the clause list `c/1`.
fn loaded(alloc: Global) -> Result<Loaded, AllocError> {
    let mut decls = Decls::new(alloc);
    declare(alloc, &mut decls, Name::new(alloc, b"r")?, Kind::Relation)?;
    declare(alloc, &mut decls, Name::new(alloc, b"c")?, Kind::Clauses)?;
    let program = Program::new(decls, Clauses::from_vec(Vec::new(alloc)));
    Loaded::new(alloc, &program)
}

// A name.
fn name_of(rt: &impl Abort, alloc: Global, name: &[u8]) -> Result<Name, AllocError> {
    assert!(rt; is_name(name));
    Name::new(alloc, name)
}

// What all built-ins come to for a compound of one argument.
fn one(rt: &impl Abort, mut heap: Heap, name: &[u8], t: Ref) -> Result<Outcomes, AllocError>
    requires { t < cell_count heap }
{
    let alloc = heap.allocator();
    let name = name_of(rt, alloc, name)?;
    let at = heap.new_cmp(&name, &[t])?;
    call_all(&loaded(alloc)?, &mut heap, at)
}

#[test]
fn a_variable_can_not_be_put(rt: HostRuntime) -> Result<(), Fail> {
    let program = loaded(rt.alloc())?;
    let mut heap = Heap::new(rt.alloc());
    let at = heap.new_var()?;
    let all = call_all(&program, &mut heap, at)?;
    assert!(rt; matches!(all.insert, Outcome::Instantiation));
    assert!(rt; matches!(all.delete, Outcome::Instantiation));
    assert!(rt; matches!(all.asserta, Outcome::Instantiation));
    assert!(rt; matches!(all.assertz, Outcome::Instantiation));
    assert!(rt; matches!(all.retract, Outcome::Instantiation));
    Ok(())
}

#[test]
fn a_predicate_is_unknown(rt: HostRuntime) -> Result<(), Fail> {
    let mut heap = Heap::new(rt.alloc());
    let t = heap.new_var()?;
    let all = one(&rt, heap, b"other", t)?;
    assert!(rt; matches!(all.insert, Outcome::Unknown));
    assert!(rt; matches!(all.delete, Outcome::Unknown));
    assert!(rt; matches!(all.asserta, Outcome::Unknown));
    assert!(rt; matches!(all.assertz, Outcome::Unknown));
    assert!(rt; matches!(all.retract, Outcome::Unknown));
    Ok(())
}

#[test]
fn a_tuple_is_put_and_taken_out(rt: HostRuntime) -> Result<(), Fail> {
    let mut heap = Heap::new(rt.alloc());
    let t = heap.new_int(1)?;
    let all = one(&rt, heap, b"r", t)?;
    assert!(rt; matches!(all.insert, Outcome::Inserts));
    assert!(rt; matches!(all.delete, Outcome::Deletes));
    assert!(rt; matches!(all.asserta, Outcome::NotPermitted));
    assert!(rt; matches!(all.assertz, Outcome::NotPermitted));
    assert!(rt; matches!(all.retract, Outcome::NotPermitted));
    Ok(())
}

#[test]
fn a_clause_is_put_and_taken_out(rt: HostRuntime) -> Result<(), Fail> {
    let mut heap = Heap::new(rt.alloc());
    let t = heap.new_var()?;
    let all = one(&rt, heap, b"c", t)?;
    assert!(rt; matches!(all.insert, Outcome::NotPermitted));
    assert!(rt; matches!(all.delete, Outcome::NotPermitted));
    assert!(rt; matches!(all.asserta, Outcome::PutsFirst));
    assert!(rt; matches!(all.assertz, Outcome::PutsLast));
    assert!(rt; matches!(all.retract, Outcome::TakesOut));
    Ok(())
}

#[test]
fn a_tuple_is_ground(rt: HostRuntime) -> Result<(), Fail> {
    let mut heap = Heap::new(rt.alloc());
    let t = heap.new_var()?;
    let all = one(&rt, heap, b"r", t)?;
    assert!(rt; matches!(all.insert, Outcome::Instantiation));
    assert!(rt; matches!(all.delete, Outcome::Instantiation));
    Ok(())
}
