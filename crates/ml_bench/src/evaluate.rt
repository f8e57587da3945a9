//! An expression is evaluated again and again.
use ml_arith::{EvalStop, eval};
use ml_heap::Heap;
use ml_term::Name;
use std::alloc::{AllocError, Global};

/// Evaluates `X + 1` so often, where `X` is bound to 7, and says whether it always came to 8.
pub fn evaluate(alloc: Global, times: u32) -> Result<bool, AllocError> {
    let mut heap = Heap::new(alloc);
    let x = heap.new_var()?;
    let one = heap.new_int(1)?;
    let sum = heap.new_cmp(&Name::new(alloc, b"+")?, &[x, one])?;
    let seven = heap.new_int(7)?;
    if !heap.unify(x, seven)? {
        return Ok(false);
    }
    for _ in 0..times {
        match eval(&heap, sum) {
            Ok(8) => {}
            Ok(_) => return Ok(false),
            Err(EvalStop::Fault(_)) => return Ok(false),
            Err(EvalStop::OutOfMemory) => return Err(AllocError),
        }
    }
    Ok(true)
}
