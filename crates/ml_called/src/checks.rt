//! The checks of arguments, in the order of the definitions. They look at cells, and take no term
//! out.
ghost use Rattle.std.specs.Prelude.{◌≡◌, ◌<◌, IfOk, IsTrue, None, Ok, false};
ghost use Rattle.ml_heap.specs.Changes.{cell_count, stands_for};
ghost use Rattle.ml_search.specs.Bodies.{ball_fault, goal_fault, is_callable, list_fault};
ghost use Rattle.ml_search.specs.Errors.{is_too_large};
ghost use Rattle.ml_called.specs.Faults.{raised_for};

use crate::callable::is_callable_at;
use crate::fault::ArgumentFault;
use crate::pairs::{is_nil, tail_at};
use ml_heap::{Heap, Look, Ref};
use std::alloc::AllocError;

/// What is wrong with a cell's term as a goal, if anything: it is a variable, or too large, or it
/// isn't callable. The size comes before the walk through `,`, `;` and `->`, so what is shared
/// can't make that walk long. The heap is only read.
pub fn goal_fault(heap: &Heap, at: Ref) -> Result<Option<ArgumentFault>, AllocError>
    requires { at < cell_count heap.now }
    ensures fault { IfOk result (λ fault.
        raised_for (stands_for heap.now at) fault ≡ goal_fault (stands_for heap.now at)) }
    ensures small { result ≡ Ok None → is_too_large (stands_for heap.now at) ≡ false }
    ensures callable { result ≡ Ok None → IsTrue (is_callable (stands_for heap.now at)) }
{
    if let Some(fault) = ball_fault(heap, at)? {
        return Ok(Some(fault));
    }
    if is_callable_at(heap, at)? {
        return Ok(None);
    }
    Ok(Some(ArgumentFault::NotCallable))
}

/// What is wrong with a cell's term as a ball, if anything: it is a variable, or too large. The
/// heap is only read.
pub fn ball_fault(heap: &Heap, at: Ref) -> Result<Option<ArgumentFault>, AllocError>
    requires { at < cell_count heap.now }
    ensures fault { IfOk result (λ fault.
        raised_for (stands_for heap.now at) fault ≡ ball_fault (stands_for heap.now at)) }
    ensures small { result ≡ Ok None → is_too_large (stands_for heap.now at) ≡ false }
{
    if let Look::Var(_) = heap.look(at) {
        return Ok(Some(ArgumentFault::Unbound));
    }
    if heap.is_too_large(at)? {
        return Ok(Some(ArgumentFault::TooLarge));
    }
    Ok(None)
}

/// What is wrong with a cell's term as the list of a `findall/3`, if anything: it is neither a list
/// nor cells of a list that end in a variable. The heap is only read. It takes no memory.
pub fn list_fault(heap: &Heap, at: Ref) -> Option<ArgumentFault>
    requires { at < cell_count heap.now }
    ensures { raised_for (stands_for heap.now at) result ≡ list_fault (stands_for heap.now at) }
{
    let mut rest = at;
    while let Some(tail) = tail_at(heap, rest) {
        rest = tail;
    }
    match heap.look(rest) {
        Look::Var(_) => None,
        Look::Atom(name) if is_nil(name) => None,
        _ => Some(ArgumentFault::NotAList),
    }
}
