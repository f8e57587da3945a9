//! `=/2` and `\=/2`, and unifications as outcomes.
ghost use Rattle.std.specs.Prelude.{◌≡◌, ◌<◌, ◌∷◌, [], IfOk};
ghost use Rattle.std.specs.Option.{is_none};
ghost use Rattle.ml_term.specs.Unify.{unifier};
ghost use Rattle.ml_heap.specs.Changes.{cell_count, KeepsMarks, stands_for, variable_count};
ghost use Rattle.ml_search.specs.Builtins.{test_result, unify_result};
ghost use Rattle.ml_builtin.specs.Outcomes.{Agrees};

use crate::outcome::Outcome;
use ml_heap::{Heap, Ref};
use std::alloc::AllocError;

// Unifies the terms of two cells.
pub(crate) fn unify_cells(heap: &mut Heap, a: Ref, b: Ref) -> Result<Outcome, AllocError>
    requires a_inside { a < cell_count heap.old }
    requires b_inside { b < cell_count heap.old }
    ensures done { IfOk result (λ outcome. Agrees heap.old heap.new
        (unify_result ((stands_for heap.old a, stands_for heap.old b) ∷ [])
        (variable_count heap.old)) outcome) }
    ensures marks { KeepsMarks heap.old heap.new }
{
    if heap.unify(a, b)? {
        Ok(Outcome::Succeeded)
    } else {
        Ok(Outcome::Failed)
    }
}

// Unifies the terms of two cells, and then those of two others.
pub(crate) fn unify_both(
    heap: &mut Heap,
    a: Ref,
    b: Ref,
    c: Ref,
    d: Ref,
) -> Result<Outcome, AllocError>
    requires a_inside { a < cell_count heap.old }
    requires b_inside { b < cell_count heap.old }
    requires c_inside { c < cell_count heap.old }
    requires d_inside { d < cell_count heap.old }
    ensures done { IfOk result (λ outcome. Agrees heap.old heap.new
        (unify_result ((stands_for heap.old a, stands_for heap.old b)
        ∷ (stands_for heap.old c, stands_for heap.old d) ∷ [])
        (variable_count heap.old)) outcome) }
    ensures marks { KeepsMarks heap.old heap.new }
{
    if !heap.unify(a, b)? {
        return Ok(Outcome::Failed);
    }
    Ok(unify_cells(heap, c, d)?)
}

// Whether the terms of two cells have no unifier. No binding stays.
pub(crate) fn unifies_not(heap: &mut Heap, a: Ref, b: Ref) -> Result<Outcome, AllocError>
    requires a_inside { a < cell_count heap.old }
    requires b_inside { b < cell_count heap.old }
    ensures done { IfOk result (λ outcome. Agrees heap.old heap.new
        (test_result (is_none (unifier (stands_for heap.old a) (stands_for heap.old b)))
        (variable_count heap.old)) outcome) }
    ensures marks { KeepsMarks heap.old heap.new }
{
    let mark = heap.mark();
    let found = heap.unify(a, b)?;
    heap.undo_to(mark);
    if found {
        Ok(Outcome::Failed)
    } else {
        Ok(Outcome::Succeeded)
    }
}
