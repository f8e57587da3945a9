//! The code of a called body.
ghost use Rattle.std.specs.Prelude.{◌≡◌, ◌<◌, false, IfOk, OnErr};
ghost use Rattle.ml_heap.specs.Changes.{cell_count, stands_for};
ghost use Rattle.ml_search.specs.Errors.{is_too_large};
ghost use Rattle.ml_called.specs.Called.{IsCalled};
ghost use Rattle.ml_called.specs.inside.Outlines.{Begins};

use crate::walk::outline_at;
use ml_compile::{Code, compile_body};
use ml_heap::{Heap, Ref};
use std::alloc::AllocError;

/// The code of a cell's term as a body that is called: each argument of its goals, and each
/// variable that stands as a body, becomes a variable, numbered from 0 from the left, whose cell
/// goes behind the slots. The heap is only read. The code of an integer, which is no goal, fails.
/// `goal_fault` comes first, so that the term isn't too large: it is gone over node by node.
/// After a refusal the slots are as they were.
pub fn compile_called(heap: &Heap, at: Ref, slots: &mut Vec<Ref>) -> Result<Code, AllocError>
    requires inside { at < cell_count heap.now }
    requires small { is_too_large (stands_for heap.now at) ≡ false }
    ensures called { IfOk result (λ code.
        IsCalled heap.now at slots.old.items slots.new.items code) }
    ensures refused { OnErr result (slots.new.items ≡ slots.old.items) }
{
    let env = slots.len();
    match compile_outline(heap, at, slots) {
        Ok(code) => Ok(code),
        Err(refused) => {
            slots.truncate(env);
            Err(refused)
        }
    }
}

// The code, where a refusal leaves cells behind the slots.
fn compile_outline(heap: &Heap, at: Ref, slots: &mut Vec<Ref>) -> Result<Code, AllocError>
    requires { at < cell_count heap.now }
    ensures called { IfOk result (λ code.
        IsCalled heap.now at slots.old.items slots.new.items code) }
    ensures begins { Begins slots.old.items slots.new.items }
{
    let body = outline_at(heap, at, slots)?;
    let code = compile_body(heap.allocator(), &body)?;
    Ok(code)
}
