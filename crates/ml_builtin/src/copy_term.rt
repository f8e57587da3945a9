//! `copy_term/2`.
ghost use Rattle.std.specs.Prelude.{◌≡◌, ◌+◌, ◌<◌, IfOk, OnOk};
ghost use Rattle.ml_term.specs.Tree.{rename, width};
ghost use Rattle.ml_heap.specs.Changes.{cell_count, HasTree, KeepsMarks, stands_for};
ghost use Rattle.ml_heap.specs.Changes.{variable_count};
ghost use Rattle.ml_search.specs.Builtins.{copy_term};
ghost use Rattle.ml_builtin.specs.Outcomes.{Agrees};

use crate::outcome::Outcome;
use crate::unify::unify_cells;
use ml_copy::copy_from;
use ml_heap::{Heap, Ref};
use std::alloc::AllocError;

// Unifies with a copy of a term.
pub(crate) fn copy_term(heap: &mut Heap, t: Ref, c: Ref) -> Result<Outcome, AllocError>
    requires t_inside { t < cell_count heap.old }
    requires c_inside { c < cell_count heap.old }
    ensures done { IfOk result (λ outcome. Agrees heap.old heap.new
        (copy_term (stands_for heap.old t) (stands_for heap.old c) (variable_count heap.old))
        outcome) }
    ensures marks { KeepsMarks heap.old heap.new }
{
    let copy = copy_of(heap, t)?;
    Ok(unify_cells(heap, c, copy)?)
}

// A cell that stands for a new copy of a cell's term, by way of a second heap. All other cells
// stay.
fn copy_of(heap: &mut Heap, t: Ref) -> Result<Ref, AllocError>
    requires { t < cell_count heap.old }
    ensures copied { IfOk result (λ r. HasTree heap.old heap.new r
        (rename (variable_count heap.old) (stands_for heap.old t))) }
    ensures counted { OnOk result (variable_count heap.new
        ≡ variable_count heap.old + width (stands_for heap.old t)) }
    ensures marks { KeepsMarks heap.old heap.new }
{
    let mut apart = Heap::new(heap.allocator());
    let copy = copy_from(&mut apart, heap, t)?;
    Ok(copy_from(heap, &apart, copy)?)
}
