//! Heads matched with a call's arguments: in read mode, where an argument is there, in write mode,
//! where it is a variable, and in both by turns.
ghost use Rattle.std.specs.Prelude.{◌<◌, ◌≤◌, IfOk, IsTrue};
ghost use Rattle.ml_heap.specs.Changes.{AreCells, cell_count};
ghost use Rattle.ml_term.specs.Seen.{seen};
ghost use Rattle.ml_term.specs.Tree.{nodes};
ghost use Rattle.ml_term.specs.Valid.{is_valid};

use crate::texts::{clause_in, term_in};
use ml_compile::compile_clause;
use ml_heap::{Heap, Look, Ref, TreeStop};
use ml_match::enter;
use ml_search::{Clause, rename};
use ml_term::{MAX_TERM_NODES, Term, compare};
use std::alloc::{AllocError, Global};
use std::cmp::Ordering;
use std::process::Abort;
use std::test::Fail;

/// What a call is when a clause was entered by it.
#[derive(Drop)]
enum Told {
    /// The clause or the call isn't right, or too large.
    Unread,
    /// The head doesn't unify with it.
    NotEntered,
    /// The call, with its variables numbered from 0.
    Call(Term),
}

// The cells of a compound's arguments.
fn arguments(alloc: Global, heap: &Heap, at: Ref) -> Result<Vec<Ref>, AllocError>
    requires { at < cell_count heap.now }
    ensures { IfOk result (λ cells. AreCells (cell_count heap.now) cells.items) }
{
    let mut cells = Vec::new(alloc);
    let Look::Cmp(_, count) = heap.look(at) else {
        return Ok(cells);
    };
    for i in 0..count {
        cells.push(heap.arg(at, i))?;
    }
    Ok(cells)
}

// Enters a clause by a call, and tells what the call is then.
fn called(alloc: Global, clause: &Clause, call: &Term) -> Result<Told, AllocError>
    requires { IsTrue (is_valid (seen call.now)) }
{
    let mut heap = Heap::new(alloc);
    let at = heap.store_tree(call)?;
    let args = arguments(alloc, &heap, at)?;
    if args.len() != clause.head.arity() {
        return Ok(Told::Unread);
    }
    let code = compile_clause(alloc, clause)?;
    let mut slots = Vec::new(alloc);
    let mut todo = Vec::new(alloc);
    match enter(
        &mut heap,
        &mut slots,
        &mut todo,
        code.as_slice(),
        args.as_slice(),
    )? {
        Some(_) => told_of(alloc, &heap, at),
        None => Ok(Told::NotEntered),
    }
}

// What the call in a cell is told as.
fn told_of(alloc: Global, heap: &Heap, at: Ref) -> Result<Told, AllocError>
    requires { at < cell_count heap.now }
{
    match heap.tree_at(at) {
        Ok(t) => Ok(Told::Call(rename(alloc, &t, 0)?)),
        Err(TreeStop::TooLarge) => Ok(Told::Unread),
        Err(TreeStop::OutOfMemory) => Err(AllocError),
    }
}

// The same of texts.
fn tell(alloc: Global, clause: &[u8], call: &[u8]) -> Result<Told, AllocError> {
    let Some(clause) = clause_in(alloc, clause)? else {
        return Ok(Told::Unread);
    };
    let Some(call) = term_in(alloc, call)? else {
        return Ok(Told::Unread);
    };
    called(alloc, &clause, &call)
}

// A small term with its variables numbered from 0.
fn numbered(alloc: Global, t: &Term) -> Result<Term, AllocError>
    requires valid { IsTrue (is_valid (seen t.now)) }
    requires small { nodes (seen t.now) ≤ MAX_TERM_NODES }
{
    rename(alloc, t, 0)
}

// Whether a call became what a text says, with its variables numbered from 0.
fn is_told(alloc: Global, told: &Told, want: &[u8]) -> Result<bool, AllocError> {
    let Some(want) = term_in(alloc, want)? else {
        return Ok(matches!(told, Told::NotEntered));
    };
    match told {
        Told::Call(t) => {
            let want = numbered(alloc, &want)?;
            Ok(compare(t, &want) == Ordering::Equal)
        }
        _ => Ok(false),
    }
}

// Whether each call becomes what stands beside it, when the clause is entered by it, or doesn't
// enter it, where nothing stands there.
fn check(rt: &impl Abort, alloc: Global, table: &[(&[u8], &[u8], &[u8])]) -> Result<(), Fail> {
    for (clause, call, want) in table {
        let told = tell(alloc, clause, call)?;
        assert!(rt; is_told(alloc, &told, want)?, "{clause:?} {call:?}");
    }
    Ok(())
}

#[test]
fn what_is_there_is_read(rt: HostRuntime) -> Result<(), Fail> {
    let table: [(&[u8], &[u8], &[u8]); 14] = [
        (b"p.", b"p.", b"p."),
        (b"p(7).", b"p(7).", b"p(7)."),
        (b"p(7).", b"p(8).", b""),
        (b"p(7).", b"p(a).", b""),
        (b"p(7).", b"p(f(7)).", b""),
        (b"p(a).", b"p(a).", b"p(a)."),
        (b"p(a).", b"p(b).", b""),
        (b"p(a).", b"p(a(1)).", b""),
        (b"p(f(X, g(X))).", b"p(f(a, g(a))).", b"p(f(a, g(a)))."),
        (b"p(f(X, g(X))).", b"p(f(a, g(b))).", b""),
        (b"p(f(X)).", b"p(f(a, b)).", b""),
        (b"p(f(X)).", b"p(g(a)).", b""),
        (b"p(f(X)).", b"p(f).", b""),
        (b"p([X, Y|Z]).", b"p([a, b, c]).", b"p([a, b, c])."),
    ];
    check(&rt, rt.alloc(), &table)
}

#[test]
fn what_is_not_there_is_written(rt: HostRuntime) -> Result<(), Fail> {
    let table: [(&[u8], &[u8], &[u8]); 8] = [
        (b"p(7).", b"p(A).", b"p(7)."),
        (b"p(a).", b"p(A).", b"p(a)."),
        (b"p(f(X, g(X), Y)).", b"p(A).", b"p(f(B, g(B), C))."),
        (b"p([X, Y|Z]).", b"p(A).", b"p([B, C|D])."),
        (b"p(f(g(h(X))), X).", b"p(A, b).", b"p(f(g(h(b))), b)."),
        (b"p(f(g(X), Y)).", b"p(f(A, b)).", b"p(f(g(C), b))."),
        (
            b"p(f(g(h(X)), Y), Y).",
            b"p(f(A, a), B).",
            b"p(f(g(h(C)), a), a).",
        ),
        (b"p(f(a, X), X).", b"p(A, A).", b""),
    ];
    check(&rt, rt.alloc(), &table)
}

#[test]
fn variables_are_unified_with_the_occurs_check(rt: HostRuntime) -> Result<(), Fail> {
    let table: [(&[u8], &[u8], &[u8]); 11] = [
        (b"p(X).", b"p(A).", b"p(A)."),
        (b"p(X, X).", b"p(a, a).", b"p(a, a)."),
        (b"p(X, X).", b"p(a, b).", b""),
        (b"p(X, X).", b"p(A, B).", b"p(A, A)."),
        (b"p(X, X).", b"p(A, f(B)).", b"p(f(B), f(B))."),
        (
            b"p(X, X).",
            b"p(f(A, b), f(a, B)).",
            b"p(f(a, b), f(a, b)).",
        ),
        (b"p(X, X).", b"p(A, f(A)).", b""),
        (b"p(X, f(X)).", b"p(A, A).", b""),
        (b"p(X, f(X)).", b"p(A, B).", b"p(A, f(A))."),
        (b"p(f(X), f(Y)).", b"p(A, A).", b"p(f(B), f(B))."),
        (b"p(f(X), X).", b"p(A, A).", b""),
    ];
    check(&rt, rt.alloc(), &table)
}
