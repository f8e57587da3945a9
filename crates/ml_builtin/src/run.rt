//! A call of a plain built-in.
ghost use Rattle.std.specs.Prelude.{◌≡◌, ◌<◌, ◌∷◌, [], IfOk, length, map};
ghost use Rattle.ml_heap.specs.Changes.{AreCells, cell_count, KeepsMarks, stands_for};
ghost use Rattle.ml_search.specs.Builtins.{builtin};
ghost use Rattle.ml_builtin.specs.Outcomes.{DoesBuiltin};
ghost use Rattle.ml_builtin.specs.Tables.{binary_name, plain_arity, plain_name, ternary_name};
ghost use Rattle.ml_builtin.specs.Tables.{test_name};

use crate::arg::arg;
use crate::arithmetic::{assign, compare_values};
use crate::compare::compare_terms;
use crate::copy_term::copy_term;
use crate::functor::functor;
use crate::outcome::{Outcome, outcome_of_test};
use crate::plain::{Binary, Plain, Ternary};
use crate::type_test::TypeTest;
use crate::unify::{unifies_not, unify_cells};
use crate::univ::univ;
use ml_heap::{Heap, Ref};
use std::alloc::AllocError;

/// Calls a plain built-in on the cells of its arguments, as many as it takes: it does what the
/// definitions say of their terms. It fails; or it succeeds, and the heap carries its trees by the
/// definition's map, to the definition's next number of a variable; or it raises the definition's
/// term, and the heap is as it was.
/// Every mark still has its heap, after a refusal too, so that undoing to one gives it back.
pub fn run_builtin(heap: &mut Heap, plain: Plain, args: &[Ref]) -> Result<Outcome, AllocError>
    requires many { length args.now ≡ plain_arity plain }
    requires inside { AreCells (cell_count heap.old) args.now }
    ensures done { IfOk result (λ outcome. DoesBuiltin heap.old heap.new
        (builtin (plain_name plain) (map (stands_for heap.old) args.now)) outcome) }
    ensures marks { KeepsMarks heap.old heap.new }
{
    match plain {
        Plain::One(test) => Ok(call_one(heap, test, args)?),
        Plain::Two(binary) => Ok(call_two(heap, binary, args)?),
        Plain::Three(ternary) => Ok(call_three(heap, ternary, args)?),
    }
}

// Calls a built-in on the cell of its argument.
fn call_one(heap: &mut Heap, test: TypeTest, args: &[Ref]) -> Result<Outcome, AllocError>
    requires many { length args.now ≡ 1 }
    requires inside { AreCells (cell_count heap.old) args.now }
    ensures done { IfOk result (λ outcome. DoesBuiltin heap.old heap.new
        (builtin (test_name test) (map (stands_for heap.old) args.now)) outcome) }
    ensures marks { KeepsMarks heap.old heap.new }
{
    Ok(run_test(heap, test, args[0])?)
}

// Calls a built-in on the cells of its two arguments.
fn call_two(heap: &mut Heap, binary: Binary, args: &[Ref]) -> Result<Outcome, AllocError>
    requires many { length args.now ≡ 2 }
    requires inside { AreCells (cell_count heap.old) args.now }
    ensures done { IfOk result (λ outcome. DoesBuiltin heap.old heap.new
        (builtin (binary_name binary) (map (stands_for heap.old) args.now)) outcome) }
    ensures marks { KeepsMarks heap.old heap.new }
{
    Ok(run_binary(heap, binary, args[0], args[1])?)
}

// Calls a built-in on the cells of its three arguments.
fn call_three(heap: &mut Heap, ternary: Ternary, args: &[Ref]) -> Result<Outcome, AllocError>
    requires many { length args.now ≡ 3 }
    requires inside { AreCells (cell_count heap.old) args.now }
    ensures done { IfOk result (λ outcome. DoesBuiltin heap.old heap.new
        (builtin (ternary_name ternary) (map (stands_for heap.old) args.now)) outcome) }
    ensures marks { KeepsMarks heap.old heap.new }
{
    Ok(run_ternary(heap, ternary, args[0], args[1], args[2])?)
}

// Tests the type of a cell's term.
fn run_test(heap: &mut Heap, test: TypeTest, at: Ref) -> Result<Outcome, AllocError>
    requires { at < cell_count heap.old }
    ensures done { IfOk result (λ outcome. DoesBuiltin heap.old heap.new
        (builtin (test_name test) (stands_for heap.old at ∷ [])) outcome) }
    ensures marks { KeepsMarks heap.old heap.new }
{
    let holds = test.holds(heap, at)?;
    Ok(outcome_of_test(holds))
}

// Calls a built-in of two arguments.
fn run_binary(heap: &mut Heap, binary: Binary, t: Ref, u: Ref) -> Result<Outcome, AllocError>
    requires t_inside { t < cell_count heap.old }
    requires u_inside { u < cell_count heap.old }
    ensures done { IfOk result (λ outcome. DoesBuiltin heap.old heap.new
        (builtin (binary_name binary) (stands_for heap.old t ∷ stands_for heap.old u ∷ []))
        outcome) }
    ensures marks { KeepsMarks heap.old heap.new }
{
    match binary {
        Binary::Unify => Ok(unify_cells(heap, t, u)?),
        Binary::NotUnifiable => Ok(unifies_not(heap, t, u)?),
        Binary::Univ => Ok(univ(heap, t, u)?),
        Binary::CopyTerm => Ok(copy_term(heap, t, u)?),
        Binary::Is => Ok(assign(heap, t, u)?),
        Binary::Order(relation) => Ok(compare_terms(heap, relation, t, u)?),
        Binary::Value(relation) => Ok(compare_values(heap, relation, t, u)?),
    }
}

// Calls a built-in of three arguments.
fn run_ternary(
    heap: &mut Heap,
    ternary: Ternary,
    t: Ref,
    u: Ref,
    v: Ref,
) -> Result<Outcome, AllocError>
    requires t_inside { t < cell_count heap.old }
    requires u_inside { u < cell_count heap.old }
    requires v_inside { v < cell_count heap.old }
    ensures done { IfOk result (λ outcome. DoesBuiltin heap.old heap.new
        (builtin (ternary_name ternary)
        (stands_for heap.old t ∷ stands_for heap.old u ∷ stands_for heap.old v ∷ [])) outcome) }
    ensures marks { KeepsMarks heap.old heap.new }
{
    match ternary {
        Ternary::Functor => Ok(functor(heap, t, u, v)?),
        Ternary::Arg => Ok(arg(heap, t, u, v)?),
    }
}
