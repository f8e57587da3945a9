//! `arg/3`.
ghost use Rattle.std.specs.Prelude.{◌≡◌, ◌<◌, ◌&&◌, IfOk, MatchOption, nat_le, None, true, false};
ghost use Rattle.ml_term.specs.Keys.{argument, arguments};
ghost use Rattle.ml_heap.specs.Changes.{cell_count, KeepsMarks, stands_for, variable_count};
ghost use Rattle.ml_search.specs.Builtins.{arg, arg_fault};
ghost use Rattle.ml_search.specs.Program.{arity_of};
ghost use Rattle.ml_search.specs.TypeTests.{number_of};
ghost use Rattle.ml_builtin.specs.Outcomes.{Agrees};
ghost use Rattle.ml_builtin.specs.inside.Faults.{IsFault};

use crate::outcome::Outcome;
use crate::seen_types::{
    arity_at, is_compound, is_either_variable, is_integer, is_negative, is_over, number_at,
};
use crate::unify::unify_cells;
use ml_heap::{Heap, Ref};
use ml_raise::{Domain, TermType, domain_error, instantiation_error, type_error};
use ml_term::Term;
use std::alloc::AllocError;

// `arg(N, T, A)`.
pub(crate) fn arg(heap: &mut Heap, n: Ref, t: Ref, a: Ref) -> Result<Outcome, AllocError>
    requires n_inside { n < cell_count heap.old }
    requires t_inside { t < cell_count heap.old }
    requires a_inside { a < cell_count heap.old }
    ensures done { IfOk result (λ outcome. Agrees heap.old heap.new
        (arg (stands_for heap.old n) (stands_for heap.old t) (stands_for heap.old a)
        (variable_count heap.old)) outcome) }
    ensures marks { KeepsMarks heap.old heap.new }
{
    match arg_fault(heap, n, t)? {
        Some(term) => Ok(Outcome::Raised(term)),
        None => Ok(unify_argument(heap, n, t, a)?),
    }
}

// Unifies with the argument that a number names, where neither has a fault.
fn unify_argument(heap: &mut Heap, n: Ref, t: Ref, a: Ref) -> Result<Outcome, AllocError>
    requires n_inside { n < cell_count heap.old }
    requires t_inside { t < cell_count heap.old }
    requires a_inside { a < cell_count heap.old }
    requires sound { arg_fault (stands_for heap.old n) (stands_for heap.old t) ≡ None }
    ensures done { IfOk result (λ outcome. Agrees heap.old heap.new
        (arg (stands_for heap.old n) (stands_for heap.old t) (stands_for heap.old a)
        (variable_count heap.old)) outcome) }
    ensures marks { KeepsMarks heap.old heap.new }
{
    match argument_at(heap, n, t) {
        Some(argument) => Ok(unify_cells(heap, a, argument)?),
        None => Ok(Outcome::Failed),
    }
}

// The first fault of a number and of the term whose argument it names.
fn arg_fault(heap: &Heap, n: Ref, t: Ref) -> Result<Option<Term>, AllocError>
    requires n_inside { n < cell_count heap.now }
    requires t_inside { t < cell_count heap.now }
    ensures { IfOk result (λ fault. IsFault
        (arg_fault (stands_for heap.now n) (stands_for heap.now t)) fault) }
{
    if is_either_variable(heap, n, t) {
        return Ok(Some(instantiation_error(heap.allocator())?));
    }
    if !is_integer(heap, n) {
        return Ok(Some(type_error(heap, TermType::Integer, n)?));
    }
    if !is_compound(heap, t) {
        return Ok(Some(type_error(heap, TermType::Compound, t)?));
    }
    if is_negative(heap, n) {
        return Ok(Some(domain_error(heap, Domain::NotLessThanZero, n)?));
    }
    Ok(None)
}

// The argument that a number from 1 on names, if there is one.
fn argument_at(heap: &Heap, n: Ref, t: Ref) -> Option<Ref>
    requires n_inside { n < cell_count heap.now }
    requires t_inside { t < cell_count heap.now }
    ensures { let i = number_of (stands_for heap.now n) in let u = stands_for heap.now t in
        MatchOption result ((nat_le 1 i && nat_le i (arity_of u)) ≡ false)
        (λ r. ((nat_le 1 i && nat_le i (arity_of u)) ≡ true) × (r < cell_count heap.now)
        × (stands_for heap.now r ≡ argument i (arguments u))) }
{
    let arity = arity_at(heap, t);
    if is_over(heap, 0, n) {
        if is_over(heap, arity, n) {
            None
        } else {
            Some(heap.arg(t, number_at(heap, n) - 1))
        }
    } else {
        None
    }
}
