//! The checks of `retract/1`.
ghost use Rattle.std.specs.Prelude.{◌≡◌, ◌<◌, IfOk};
ghost use Rattle.ml_heap.specs.Changes.{cell_count, stands_for};
ghost use Rattle.ml_program.specs.LoadedProgram.{program_of};
ghost use Rattle.ml_search.specs.Actions.{retract_clause};
ghost use Rattle.ml_search.specs.Changes.{list_for};
ghost use Rattle.ml_search.specs.Procedures.{procedure_unless, retract_fault};
ghost use Rattle.ml_search.specs.Program.{Program};
ghost use Rattle.ml_store_goals.specs.Goals.{IsStoreGoal};
ghost use Rattle.ml_store_goals.specs.inside.Checks.{size_fault};

use crate::checked::Listed;
use crate::given::Given;
use crate::goal::StoreGoal;
use crate::predicate::list_at;
use crate::sized::sized_clause;
use ml_heap::Heap;
use ml_program::Loaded;
use ml_raise::{Limit, resource_error};
use ml_term::Kind;
use std::alloc::AllocError;

/// What `retract/1` comes to for a clause of these cells.
pub(crate) fn retract_at(
    program: &Loaded,
    heap: &Heap,
    given: Given,
) -> Result<StoreGoal, AllocError>
    requires head { given.head < cell_count heap.now }
    requires body { given.body < cell_count heap.now }
    ensures { IfOk result (λ goal. IsStoreGoal heap.now
        (procedure_unless (program_of program.now)
        (retract_fault (program_of program.now) (stands_for heap.now given.head)
        (stands_for heap.now given.body))
        (retract_clause
        (list_for (program_of program.now).decls (stands_for heap.now given.head))
        (stands_for heap.now given.head) (stands_for heap.now given.body))) goal) }
{
    match list_at(program, Kind::Clauses, heap, given.head)? {
        Listed::Raises(error) => Ok(StoreGoal::Raise(error)),
        Listed::List(list) => retract_from(heap, list, given),
    }
}

// What `retract/1` comes to for a clause of these cells, whose head's predicate has a list of
// clauses.
fn retract_from(heap: &Heap, list: u32, given: Given) -> Result<StoreGoal, AllocError>
    requires head { given.head < cell_count heap.now }
    requires body { given.body < cell_count heap.now }
    ensures { IfOk result (λ goal. (p : Program) → IsStoreGoal heap.now
        (procedure_unless p
        (size_fault (stands_for heap.now given.head) (stands_for heap.now given.body))
        (retract_clause list (stands_for heap.now given.head) (stands_for heap.now given.body)))
        goal) }
{
    let Some(terms) = sized_clause(heap, given)? else {
        return Ok(StoreGoal::Raise(resource_error(heap.allocator(), Limit::TermNodes)?));
    };
    Ok(StoreGoal::Retract {
        list,
        pattern: terms.head,
        head: given.head,
        body: given.body,
    })
}
