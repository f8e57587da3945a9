//! Goals of the built-ins that change lists.
ghost use Rattle.std.specs.Prelude.{◌≡◌, ◌<◌, ◌∷◌, [], codes, IfOk, OnOk};
ghost use Rattle.ml_heap.specs.Changes.{cell_count, Grows, stands_for, variable_count};
ghost use Rattle.ml_program.specs.LinkedGoals.{store_name};
ghost use Rattle.ml_program.specs.LoadedProgram.{program_of};
ghost use Rattle.ml_search.specs.Procedures.{assert_fault, given_body, given_head, procedure_of};
ghost use Rattle.ml_search.specs.Program.{clause_term};
ghost use Rattle.ml_store_goals.specs.Goals.{IsStoreGoal};
ghost use Rattle.ml_store_goals.specs.inside.Checks.{IsChecked};
ghost use Rattle.ml_term.specs.Tree.{rename};

use crate::checked::Checked;
use crate::clauses::clause_at;
use crate::given::given_at;
use crate::goal::StoreGoal;
use crate::retract::retract_at;
use crate::tuples::tuple_at;
use ml_heap::{Heap, Ref};
use ml_program::{Loaded, StoreCall};
use ml_search::Op;
use std::alloc::AllocError;

/// What a call of a built-in that changes lists comes to, where its argument stands in a cell. All
/// cells stay, and at most one is made: the body `true` of a clause that is given without one.
/// After a refusal some cells may stand behind the others.
pub fn store_goal(
    program: &Loaded,
    call: StoreCall,
    heap: &mut Heap,
    argument: Ref,
) -> Result<StoreGoal, AllocError>
    requires { argument < cell_count heap.old }
    ensures is { IfOk result (λ goal. IsStoreGoal heap.new
        (procedure_of (program_of program.now) (store_name call)
        (stands_for heap.old argument ∷ [])) goal) }
    ensures grown { OnOk result (Grows heap.old heap.new) }
    ensures counted { OnOk result (variable_count heap.new ≡ variable_count heap.old) }
{
    match call {
        StoreCall::InsertTuple => insert_goal(program, heap, argument),
        StoreCall::DeleteTuple => delete_goal(program, heap, argument),
        StoreCall::Asserta => asserta_goal(program, heap, argument),
        StoreCall::Assertz => assertz_goal(program, heap, argument),
        StoreCall::Retract => retract_goal(program, heap, argument),
    }
}

// What `insert_tuple/1` comes to.
fn insert_goal(program: &Loaded, heap: &Heap, argument: Ref) -> Result<StoreGoal, AllocError>
    requires { argument < cell_count heap.now }
    ensures { IfOk result (λ goal. IsStoreGoal heap.now
        (procedure_of (program_of program.now) (codes "insert_tuple")
        (stands_for heap.now argument ∷ [])) goal) }
{
    match tuple_at(program, heap, argument)? {
        Checked::Raises(error) => Ok(StoreGoal::Raise(error)),
        Checked::Passes(tuple) => Ok(StoreGoal::Change {
            op: Op::Insert(tuple),
            must_change: false,
        }),
    }
}

// What `delete_tuple/1` comes to.
fn delete_goal(program: &Loaded, heap: &Heap, argument: Ref) -> Result<StoreGoal, AllocError>
    requires { argument < cell_count heap.now }
    ensures { IfOk result (λ goal. IsStoreGoal heap.now
        (procedure_of (program_of program.now) (codes "delete_tuple")
        (stands_for heap.now argument ∷ [])) goal) }
{
    match tuple_at(program, heap, argument)? {
        Checked::Raises(error) => Ok(StoreGoal::Raise(error)),
        Checked::Passes(tuple) => Ok(StoreGoal::Change {
            op: Op::Delete(tuple),
            must_change: true,
        }),
    }
}

// What `asserta/1` comes to.
fn asserta_goal(program: &Loaded, heap: &mut Heap, argument: Ref) -> Result<StoreGoal, AllocError>
    requires { argument < cell_count heap.old }
    ensures is { IfOk result (λ goal. IsStoreGoal heap.new
        (procedure_of (program_of program.now) (codes "asserta")
        (stands_for heap.old argument ∷ [])) goal) }
    ensures grown { OnOk result (Grows heap.old heap.new) }
    ensures counted { OnOk result (variable_count heap.new ≡ variable_count heap.old) }
{
    match clause_of(program, heap, argument)? {
        Checked::Raises(error) => Ok(StoreGoal::Raise(error)),
        Checked::Passes(clause) => Ok(StoreGoal::Change {
            op: Op::Asserta(clause),
            must_change: false,
        }),
    }
}

// What `assertz/1` comes to.
fn assertz_goal(program: &Loaded, heap: &mut Heap, argument: Ref) -> Result<StoreGoal, AllocError>
    requires { argument < cell_count heap.old }
    ensures is { IfOk result (λ goal. IsStoreGoal heap.new
        (procedure_of (program_of program.now) (codes "assertz")
        (stands_for heap.old argument ∷ [])) goal) }
    ensures grown { OnOk result (Grows heap.old heap.new) }
    ensures counted { OnOk result (variable_count heap.new ≡ variable_count heap.old) }
{
    match clause_of(program, heap, argument)? {
        Checked::Raises(error) => Ok(StoreGoal::Raise(error)),
        Checked::Passes(clause) => Ok(StoreGoal::Change {
            op: Op::Assertz(clause),
            must_change: false,
        }),
    }
}

// The clause that is put by `asserta/1` and `assertz/1` with its variables numbered anew, where no
// check applies.
fn clause_of(program: &Loaded, heap: &mut Heap, argument: Ref) -> Result<Checked, AllocError>
    requires { argument < cell_count heap.old }
    ensures is { IfOk result (λ checked. IsChecked
        (assert_fault (program_of program.now) (given_head (stands_for heap.old argument))
        (given_body (stands_for heap.old argument)))
        (rename 0 (clause_term (given_head (stands_for heap.old argument))
        (given_body (stands_for heap.old argument)))) checked) }
    ensures grown { OnOk result (Grows heap.old heap.new) }
    ensures counted { OnOk result (variable_count heap.new ≡ variable_count heap.old) }
{
    let given = given_at(heap, argument)?;
    clause_at(program, heap, given)
}

// What `retract/1` comes to.
fn retract_goal(program: &Loaded, heap: &mut Heap, argument: Ref) -> Result<StoreGoal, AllocError>
    requires { argument < cell_count heap.old }
    ensures is { IfOk result (λ goal. IsStoreGoal heap.new
        (procedure_of (program_of program.now) (codes "retract")
        (stands_for heap.old argument ∷ [])) goal) }
    ensures grown { OnOk result (Grows heap.old heap.new) }
    ensures counted { OnOk result (variable_count heap.new ≡ variable_count heap.old) }
{
    let given = given_at(heap, argument)?;
    retract_at(program, heap, given)
}
