//! Works on a heap that are undone, so that they can be done again.
ghost use Rattle.std.specs.Prelude.{◌≡◌, ◌<◌, OnOk, length};
ghost use Rattle.ml_compile.specs.Spells.{SpellsClause};
ghost use Rattle.ml_heap.specs.Changes.{AreCells, cell_count};
ghost use Rattle.ml_search.specs.Program.{Clause, arity_of};

use ml_builtin::{Binary, Outcome, Plain, Relation, run_builtin};
use ml_compile::Instr;
use ml_heap::{Heap, Ref, TreeStop};
use std::alloc::AllocError;

/// Unifies the terms of two cells and undoes it. The heap is then as it was.
pub fn unify_and_undo(heap: &mut Heap, a: Ref, b: Ref) -> Result<bool, AllocError>
    requires a_inside { a < cell_count heap.old }
    requires b_inside { b < cell_count heap.old }
    ensures { OnOk result (heap.new ≡ heap.old) }
{
    let mark = heap.mark();
    let unified = heap.unify(a, b)?;
    heap.undo_to(mark);
    Ok(unified)
}

/// Takes the term of a cell out, stores it and undoes it. The heap is then as it was.
pub fn copy_and_undo(heap: &mut Heap, at: Ref) -> Result<(), TreeStop>
    requires { at < cell_count heap.old }
    ensures { OnOk result (heap.new ≡ heap.old) }
{
    let mark = heap.mark();
    let term = heap.tree_at(at)?;
    heap.store_tree(&term)?;
    heap.undo_to(mark);
    Ok(())
}

/// Enters a clause with some cells, undoes it, and says whether it could be entered. The heap is
/// then as it was.
pub fn enter_and_undo(
    heap: &mut Heap,
    slots: &mut Vec<Ref>,
    todo: &mut Vec<Ref>,
    code: &[Instr],
    args: &[Ref],
) -> Result<bool, AllocError>
    requires spelled { (c : Clause) × (SpellsClause code.now c
        × (arity_of c.head ≡ length args.now)) }
    requires inside { AreCells (cell_count heap.old) args.now }
    ensures { OnOk result (heap.new ≡ heap.old) }
{
    let mark = heap.mark();
    slots.truncate(0);
    let entered = ml_match::enter(heap, slots, todo, code, args)?;
    heap.undo_to(mark);
    Ok(entered.is_some())
}

/// Calls `==` on two cells and undoes it. The heap is then as it was.
pub fn compare_and_undo(heap: &mut Heap, a: Ref, b: Ref) -> Result<bool, AllocError>
    requires a_inside { a < cell_count heap.old }
    requires b_inside { b < cell_count heap.old }
    ensures { OnOk result (heap.new ≡ heap.old) }
{
    let mark = heap.mark();
    let args = [a, b];
    let equal = Plain::Two(Binary::Order(Relation::Equal));
    let outcome = run_builtin(heap, equal, &args)?;
    heap.undo_to(mark);
    Ok(matches!(outcome, Outcome::Succeeded))
}
