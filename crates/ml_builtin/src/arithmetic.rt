//! `is/2` and the comparisons of values.
ghost use Rattle.std.specs.Prelude.{◌<◌, ◌∷◌, [], IfOk, IsTrue};
ghost use Rattle.ml_term.specs.Tree.{integer};
ghost use Rattle.ml_term.specs.Valid.{is_in_range};
ghost use Rattle.ml_heap.specs.Changes.{cell_count, KeepsMarks, stands_for, variable_count};
ghost use Rattle.ml_search.specs.Builtins.{assign, compare_values, unify_result};
ghost use Rattle.ml_search.specs.Evaluate.{evaluate};
ghost use Rattle.ml_builtin.specs.Outcomes.{Agrees};
ghost use Rattle.ml_builtin.specs.inside.Meanings.{relation_test};
ghost use Rattle.ml_builtin.specs.inside.Values.{IsEvaluated};

use crate::outcome::{Outcome, outcome_of_test};
use crate::raise::raise_fault;
use crate::relation::Relation;
use crate::unify::unify_cells;
use ml_arith::{EvalStop, eval};
use ml_heap::{Heap, Ref};
use ml_term::Term;
use std::alloc::AllocError;

// What the expression in a cell comes to: its integer, or the term that is raised.
#[derive(Drop)]
enum Evaluated {
    Value(i64),
    Raised(Term),
}

// Unifies the term of a cell with the value of the expression in another one.
pub(crate) fn assign(heap: &mut Heap, t: Ref, u: Ref) -> Result<Outcome, AllocError>
    requires t_inside { t < cell_count heap.old }
    requires u_inside { u < cell_count heap.old }
    ensures done { IfOk result (λ outcome. Agrees heap.old heap.new
        (assign (stands_for heap.old t) (evaluate (stands_for heap.old u))
        (variable_count heap.old)) outcome) }
    ensures marks { KeepsMarks heap.old heap.new }
{
    match evaluate(heap, u)? {
        Evaluated::Raised(term) => Ok(Outcome::Raised(term)),
        Evaluated::Value(v) => Ok(unify_value(heap, t, v)?),
    }
}

// Unifies the term of a cell with an integer.
fn unify_value(heap: &mut Heap, t: Ref, v: i64) -> Result<Outcome, AllocError>
    requires inside { t < cell_count heap.old }
    requires range { IsTrue (is_in_range v) }
    ensures done { IfOk result (λ outcome. Agrees heap.old heap.new
        (unify_result ((stands_for heap.old t, integer v) ∷ [])
        (variable_count heap.old)) outcome) }
    ensures marks { KeepsMarks heap.old heap.new }
{
    let value = heap.new_int(v)?;
    Ok(unify_cells(heap, t, value)?)
}

// Compares the values of the expressions in two cells; the left one's fault comes first.
pub(crate) fn compare_values(
    heap: &mut Heap,
    relation: Relation,
    t: Ref,
    u: Ref,
) -> Result<Outcome, AllocError>
    requires t_inside { t < cell_count heap.old }
    requires u_inside { u < cell_count heap.old }
    ensures done { IfOk result (λ outcome. Agrees heap.old heap.new
        (compare_values (relation_test relation) (evaluate (stands_for heap.old t))
        (evaluate (stands_for heap.old u)) (variable_count heap.old)) outcome) }
    ensures marks { KeepsMarks heap.old heap.new }
{
    match evaluate(heap, t)? {
        Evaluated::Raised(term) => Ok(Outcome::Raised(term)),
        Evaluated::Value(x) => match evaluate(heap, u)? {
            Evaluated::Raised(term) => Ok(Outcome::Raised(term)),
            Evaluated::Value(y) => Ok(outcome_of_test(relation.holds(x.cmp(&y)))),
        },
    }
}

// What the expression in a cell comes to.
fn evaluate(heap: &Heap, at: Ref) -> Result<Evaluated, AllocError>
    requires { at < cell_count heap.now }
    ensures { IfOk result (λ found. IsEvaluated (evaluate (stands_for heap.now at)) found) }
{
    match eval(heap, at) {
        Ok(v) => Ok(Evaluated::Value(v)),
        Err(EvalStop::Fault(fault)) => Ok(Evaluated::Raised(raise_fault(heap.allocator(), fault)?)),
        Err(EvalStop::OutOfMemory) => Err(AllocError),
    }
}
