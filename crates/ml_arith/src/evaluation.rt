//! The evaluation of an expression in a cell.
ghost use Rattle.std.specs.Prelude.{◌≡◌, ◌<◌, ◌++◌, ◌∷◌, [], IfOk, IsTrue, OnOk};
ghost use Rattle.ml_heap.specs.Changes.{cell_count, stands_for};
ghost use Rattle.ml_search.specs.Evaluate.{evaluate, value};
ghost use Rattle.ml_term.specs.Valid.{is_in_range};
ghost use Rattle.ml_arith.specs.Faults.{Stops};

use crate::fault::EvalStop;
use crate::step::{Step, Task, enter, resume};
use ml_heap::{Heap, Ref};
use std::alloc::AllocError;

/// The integer that the expression in a cell comes to, from -2305843009213693952 to
/// 2305843009213693951, or the first fault of its evaluation. The heap is only read. It takes
/// memory for as many tasks as operations are open at once, and for the name of a part that is no
/// expression.
pub fn eval(heap: &Heap, at: Ref) -> Result<i64, EvalStop>
    requires { at < cell_count heap.now }
    ensures value { IfOk result (λ v. evaluate (stands_for heap.now at) ≡ value v) }
    ensures range { IfOk result (λ v. IsTrue (is_in_range v)) }
    ensures fault { Stops result (evaluate (stands_for heap.now at)) }
{
    let mut tasks = Vec::new(heap.allocator());
    let mut step = enter(heap, at)?;
    loop {
        match step {
            Step::Evaluate(cell, task) => {
                push(&mut tasks, task)?;
                step = enter(heap, cell)?;
            }
            Step::Value(v) => match tasks.pop() {
                None => return Ok(v),
                Some(task) => step = resume(task, v)?,
            },
        }
    }
}

// Puts a task last.
fn push(tasks: &mut Vec<Task>, task: Task) -> Result<(), AllocError>
    ensures { OnOk result (tasks.new.items ≡ tasks.old.items ++ task ∷ []) }
{
    tasks.push(task)?;
    Ok(())
}
