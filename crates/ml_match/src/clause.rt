//! Clauses entered.
ghost use Rattle.std.specs.Prelude.{◌≡◌, IfOk, length, map};
ghost use mathlib.Core.List.{IsPrefix};
ghost use Rattle.ml_search.specs.Program.{Clause, arity_of};
ghost use Rattle.ml_heap.specs.Changes.{AreCells, KeepsMarks, cell_count, stands_for};
ghost use Rattle.ml_compile.specs.Spells.{SpellsClause};
ghost use Rattle.ml_match.specs.Entered.{HasEntered};

use crate::matching::{match_head, push_turned};
use crate::variables::{create_variables, width_of};
use ml_compile::Instr;
use ml_heap::{Heap, Ref};
use std::alloc::AllocError;

/// Enters a clause by its code: creates its variables, puts their cells behind the slots, and
/// unifies its head's arguments with the terms of some cells. Gives the place where its body
/// begins, or none where they don't unify. `todo` is room for cells; what it held is lost.
/// After none, and after a refusal, variables may be bound, but every mark still has its heap, and
/// the slots that were there stay.
pub fn enter(
    heap: &mut Heap,
    slots: &mut Vec<Ref>,
    todo: &mut Vec<Ref>,
    code: &[Instr],
    args: &[Ref],
) -> Result<Option<usize>, AllocError>
    requires spelled { (c : Clause) × (SpellsClause code.now c
        × (arity_of c.head ≡ length args.now)) }
    requires inside { AreCells (cell_count heap.old) args.now }
    ensures entered { IfOk result (λ found. (c : Clause) → SpellsClause code.now c →
        arity_of c.head ≡ length args.now →
        HasEntered code.now heap.old heap.new slots.old.items slots.new.items c
        (map (stands_for heap.old) args.now) found) }
    ensures front { IsPrefix slots.old.items slots.new.items }
    ensures marks { KeepsMarks heap.old heap.new }
{
    let env = slots.len();
    create_variables(heap, slots, width_of(code))?;
    todo.truncate(0);
    push_turned(args, todo)?;
    Ok(match_head(heap, slots.as_mut_slice(), env, code, todo)?)
}
