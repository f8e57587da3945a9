//! Steps of an evaluation: into an expression, and on with a value.
ghost use Rattle.std.specs.Prelude.{codes, ◌≡◌, ◌<◌, Err, IfOk, IfSome, MatchOption, length};
ghost use Rattle.std.specs.Str.{bytes_eq};
ghost use Rattle.ml_heap.specs.Changes.{arguments_of, cell_count, Changes, stands_for};
ghost use Rattle.ml_search.specs.Evaluate.{evaluable_error, evaluate, no_value, value};
ghost use Rattle.ml_term.specs.Tree.{compound, trees_of};
ghost use Rattle.ml_arith.specs.declared.fault.EvalStop.TheVariants as eval_stop;
ghost use Rattle.ml_arith.specs.Faults.{fault_term, Stops};
ghost use Rattle.ml_arith.specs.inside.Work.{work_of_cell, work_of_step, work_of_task};
ghost use Rattle.ml_arith.specs.inside.Tasks.{IsSound, IsSoundTask, task_value, step_value};

use crate::fault::{EvalFault, EvalStop};
use crate::operator::Operator;
use crate::result::in_range;
use ml_heap::{Heap, Look, Ref};
use ml_term::Name;
use std::alloc::Global;

// What is still to be done with the value of a part.
#[derive(Clone, Copy)]
pub(crate) enum Task {
    // It is subtracted from 0.
    Negate,
    // It is the left operand; the right one is the expression in this cell.
    EvaluateRight(Operator, Ref),
    // It is the right operand; the left one has this value.
    Operate(Operator, i64),
}

// What an evaluation has come to.
#[derive(Clone, Copy)]
pub(crate) enum Step {
    // To an integer.
    Value(i64),
    // To the expression in a cell, with whose value the task is to be done.
    Evaluate(Ref, Task),
}

// Steps into the expression in a cell. That it is none is told before its arguments are looked at.
pub(crate) fn enter(heap: &Heap, at: Ref) -> Result<Step, EvalStop>
    requires { at < cell_count heap.now }
    ensures same { IfOk result
        (λ step. step_value heap.now step ≡ evaluate (stands_for heap.now at)) }
    ensures sound { IfOk result (λ step. IsSound heap.now step) }
    ensures less { IfOk result
        (λ step. work_of_step heap.now step < work_of_cell heap.now at) }
    ensures fault { Stops result (evaluate (stands_for heap.now at)) }
{
    match heap.look(at) {
        Look::Var(_) => Err(EvalStop::Fault(EvalFault::Unbound)),
        Look::Int(v) => Ok(Step::Value(v)),
        Look::Atom(name) => Err(not_evaluable(heap.allocator(), name, 0)),
        Look::Cmp(name, arity) => match first_operand(heap, at, name, arity) {
            Some(step) => Ok(step),
            None => Err(not_evaluable(heap.allocator(), name, arity)),
        },
    }
}

// Steps into the first argument of a compound; none where it is no expression.
fn first_operand(heap: &Heap, at: Ref, name: &Name, arity: u8) -> Option<Step>
    requires inside { at < cell_count heap.now }
    requires compound { stands_for heap.now at
        ≡ compound name.now (trees_of (arguments_of (stands_for heap.now at))) }
    requires arity { length (arguments_of (stands_for heap.now at)) ≡ arity }
    ensures same { MatchOption result
        (evaluate (stands_for heap.now at) ≡ evaluable_error name.now arity)
        (λ step. step_value heap.now step ≡ evaluate (stands_for heap.now at)) }
    ensures sound { IfSome result (λ step. IsSound heap.now step) }
    ensures less { IfSome result
        (λ step. work_of_step heap.now step < work_of_cell heap.now at) }
{
    if arity == 1 {
        return only_operand(heap, at, name);
    }
    if arity == 2 {
        return left_operand(heap, at, name);
    }
    None
}

// Steps into the argument of a compound of one.
fn only_operand(heap: &Heap, at: Ref, name: &Name) -> Option<Step>
    requires inside { at < cell_count heap.now }
    requires compound { stands_for heap.now at
        ≡ compound name.now (trees_of (arguments_of (stands_for heap.now at))) }
    requires arity { length (arguments_of (stands_for heap.now at)) ≡ 1 }
    ensures same { MatchOption result
        (evaluate (stands_for heap.now at) ≡ evaluable_error name.now 1)
        (λ step. step_value heap.now step ≡ evaluate (stands_for heap.now at)) }
    ensures sound { IfSome result (λ step. IsSound heap.now step) }
    ensures less { IfSome result
        (λ step. work_of_step heap.now step < work_of_cell heap.now at) }
{
    if is_minus(name) {
        Some(Step::Evaluate(heap.arg(at, 0), Task::Negate))
    } else {
        None
    }
}

// Steps into the left argument of a compound of two.
fn left_operand(heap: &Heap, at: Ref, name: &Name) -> Option<Step>
    requires inside { at < cell_count heap.now }
    requires compound { stands_for heap.now at
        ≡ compound name.now (trees_of (arguments_of (stands_for heap.now at))) }
    requires arity { length (arguments_of (stands_for heap.now at)) ≡ 2 }
    ensures same { MatchOption result
        (evaluate (stands_for heap.now at) ≡ evaluable_error name.now 2)
        (λ step. step_value heap.now step ≡ evaluate (stands_for heap.now at)) }
    ensures sound { IfSome result (λ step. IsSound heap.now step) }
    ensures less { IfSome result
        (λ step. work_of_step heap.now step < work_of_cell heap.now at) }
{
    match Operator::of(name) {
        Some(operator) => {
            let task = Task::EvaluateRight(operator, heap.arg(at, 1));
            Some(Step::Evaluate(heap.arg(at, 0), task))
        }
        None => None,
    }
}

// Whether this is the name of the operator of one argument.
fn is_minus(name: &Name) -> bool
    ensures { result ≡ bytes_eq (codes "-") name.now }
{
    b"-".as_slice() == name.as_slice()
}

// Steps on with the value of a part.
pub(crate) fn resume(task: Task, v: i64) -> Result<Step, EvalFault>
    ensures same { (h : Changes) → IfOk result
        (λ step. step_value h step ≡ task_value h task (value v)) }
    ensures sound { (h : Changes) → IsSoundTask h task → IfOk result (λ step. IsSound h step) }
    ensures less { (h : Changes) →
        IfOk result (λ step. work_of_step h step < work_of_task h task) }
    ensures fault { (h : Changes) (f : EvalFault) → result ≡ Err f →
        task_value h task (value v) ≡ no_value (fault_term f) }
{
    match task {
        Task::Negate => Ok(Step::Value(in_range(-i128::from(v))?)),
        Task::EvaluateRight(operator, right) => {
            Ok(Step::Evaluate(right, Task::Operate(operator, v)))
        }
        Task::Operate(operator, x) => Ok(Step::Value(operator.apply(x, v)?)),
    }
}

// The fault of a term that is no expression.
fn not_evaluable(alloc: Global, name: &Name, arity: u8) -> EvalStop
    ensures { (f : EvalFault) → result ≡ eval_stop.Fault f →
        evaluable_error name.now arity ≡ no_value (fault_term f) }
{
    match name.copy_of(alloc) {
        Ok(name) => EvalStop::Fault(EvalFault::NotEvaluable(name, arity)),
        Err(_) => EvalStop::OutOfMemory,
    }
}
