//! The checks of `insert_tuple/1` and `delete_tuple/1`.
ghost use Rattle.std.specs.Prelude.{◌<◌, IfOk, IsTrue};
ghost use Rattle.ml_heap.specs.Changes.{cell_count, stands_for};
ghost use Rattle.ml_program.specs.LoadedProgram.{program_of};
ghost use Rattle.ml_search.specs.Procedures.{tuple_fault};
ghost use Rattle.ml_store_goals.specs.inside.Checks.{ground_fault, IsChecked, relation_fault};
ghost use Rattle.ml_term.specs.Seen.{seen};
ghost use Rattle.ml_term.specs.Valid.{is_valid};

use crate::checked::{Checked, Listed};
use crate::predicate::list_at;
use crate::sized::{is_over_bytes, sized};
use ml_heap::{Heap, Ref};
use ml_program::Loaded;
use ml_raise::{Limit, instantiation_error, resource_error};
use ml_term::{Kind, Term, is_ground};
use std::alloc::{AllocError, Global};

/// The tuple of a cell, where no check applies.
pub(crate) fn tuple_at(program: &Loaded, heap: &Heap, at: Ref) -> Result<Checked, AllocError>
    requires { at < cell_count heap.now }
    ensures { IfOk result (λ checked. IsChecked
        (tuple_fault (program_of program.now) (stands_for heap.now at))
        (stands_for heap.now at) checked) }
{
    match list_at(program, Kind::Relation, heap, at)? {
        Listed::Raises(error) => Ok(Checked::Raises(error)),
        Listed::List(_) => tuple_of_relation(heap, at),
    }
}

// The tuple of a cell, whose predicate is a relation.
fn tuple_of_relation(heap: &Heap, at: Ref) -> Result<Checked, AllocError>
    requires { at < cell_count heap.now }
    ensures { IfOk result (λ checked. IsChecked (relation_fault (stands_for heap.now at))
        (stands_for heap.now at) checked) }
{
    let alloc = heap.allocator();
    match sized(heap, at)? {
        Some(term) => ground_tuple(alloc, term),
        None => Ok(Checked::Raises(resource_error(alloc, Limit::TermNodes)?)),
    }
}

// A term as a tuple, if it is ground and has not too many bytes.
fn ground_tuple(alloc: Global, term: Term) -> Result<Checked, AllocError>
    requires { IsTrue (is_valid (seen term)) }
    ensures { IfOk result (λ checked. IsChecked (ground_fault (seen term)) (seen term) checked) }
{
    if !is_ground(&term) {
        return Ok(Checked::Raises(instantiation_error(alloc)?));
    }
    if is_over_bytes(&term) {
        return Ok(Checked::Raises(resource_error(alloc, Limit::ItemBytes)?));
    }
    Ok(Checked::Passes(term))
}
