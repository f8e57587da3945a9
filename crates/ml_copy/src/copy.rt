//! A term copied from one heap into another. Tasks wait on a stack, the next one last, and copies
//! on another: a compound's arguments are copied from the left, and then it is made of them.
ghost use Rattle.std.specs.Prelude.{◌≡◌, ◌+◌, ◌<◌, ◌≤◌, ◌++◌, ◌∷◌, [], ℕ, List, length, map};
ghost use Rattle.std.specs.Prelude.{reverse, IfOk, OnOk, OnErr};
ghost use Rattle.ml_term.specs.Tree.{Tree, rename, width};
ghost use Rattle.ml_heap.specs.Changes.{cell_count, variable_count, stands_for, arguments_of};
ghost use Rattle.ml_heap.specs.Changes.{HasTree, Grows, KeepsMarks, AreCells};
ghost use Rattle.ml_heap.specs.declared.met.MetVariables.{MetVariables};
ghost use Rattle.ml_copy.specs.declared.task.Task.{Task};
ghost use Rattle.ml_copy.specs.declared.task.Task.TheVariants.{Term, Compound};
ghost use Rattle.ml_copy.specs.inside.Tasks.{IsCopying, weight};

use crate::limits::MAX_COPIED_NODES;
use crate::task::Task;
use ml_heap::{Heap, Look, MetVariables, Ref};
use std::alloc::AllocError;

/// A cell that stands for a new copy of the term of another heap's cell: its variables are created
/// by first place, whatever their numbers were. All other cells stay, and the other heap is only
/// read. A copy of more than `MAX_COPIED_NODES` nodes is refused as memory that is wanting.
/// After a refusal, for want of memory or of numbers of variables, the heap is as it was.
pub fn copy_from(to: &mut Heap, from: &Heap, at: Ref) -> Result<Ref, AllocError>
    requires { at < cell_count from.now }
    ensures copied { IfOk result (λ r. HasTree to.old to.new r
        (rename (variable_count to.old) (stands_for from.now at))) }
    ensures counted { OnOk result (variable_count to.new ≡
        variable_count to.old + width (stands_for from.now at)) }
    ensures refused { OnErr result (to.new ≡ to.old) }
{
    let mark = to.mark();
    match copy_all(to, from, at) {
        Ok(copy) => Ok(copy),
        Err(refused) => {
            to.undo_to(mark);
            Err(refused)
        }
    }
}

// The copy, where a refusal leaves cells behind.
fn copy_all(to: &mut Heap, from: &Heap, at: Ref) -> Result<Ref, AllocError>
    requires { at < cell_count from.now }
    ensures copied { IfOk result (λ r. HasTree to.old to.new r
        (rename (variable_count to.old) (stands_for from.now at))) }
    ensures counted { OnOk result (variable_count to.new ≡
        variable_count to.old + width (stands_for from.now at)) }
    ensures marks { KeepsMarks to.old to.new }
{
    let alloc = to.allocator();
    let mut met = MetVariables::new(alloc);
    let mut copies = Vec::new(alloc);
    let mut left = Vec::new(alloc);
    left.push(Task::Term(at))?;
    let mut nodes = 0;
    while let Some(task) = left.pop() {
        nodes += u32::from(matches!(task, Task::Term(_)));
        if nodes > MAX_COPIED_NODES {
            return Err(AllocError);
        }
        do_task(to, from, task, &mut met, &mut copies, &mut left)?;
    }
    Ok(copies[0])
}

// Does one task.
fn do_task(
    to: &mut Heap,
    from: &Heap,
    task: Task,
    met: &mut MetVariables,
    copies: &mut Vec<Ref>,
    left: &mut Vec<Task>,
) -> Result<(), AllocError>
    requires { (base : ℕ) × ((whole : Tree) × IsCopying from.now base whole to.old met.old
        copies.old.items (left.old.items ++ task ∷ [])) }
    ensures state { OnOk result ((base : ℕ) (whole : Tree) →
        IsCopying from.now base whole to.old met.old copies.old.items
        (left.old.items ++ task ∷ []) →
        IsCopying from.now base whole to.new met.new copies.new.items left.new.items) }
    ensures lighter { OnOk result (weight from.now left.new.items <
        weight from.now (left.old.items ++ task ∷ [])) }
    ensures grown { OnOk result (Grows to.old to.new) }
    ensures marks { KeepsMarks to.old to.new }
{
    match task {
        Task::Term(at) => {
            copy_one(to, from, at, met, copies, left)?;
            Ok(())
        }
        Task::Compound(at) => {
            make_compound(to, from, at, copies)?;
            Ok(())
        }
    }
}

// Copies a cell's term, or leaves the tasks for it where it is a compound.
fn copy_one(
    to: &mut Heap,
    from: &Heap,
    at: Ref,
    met: &mut MetVariables,
    copies: &mut Vec<Ref>,
    left: &mut Vec<Task>,
) -> Result<(), AllocError>
    requires { (base : ℕ) × ((whole : Tree) × IsCopying from.now base whole to.old met.old
        copies.old.items (left.old.items ++ Term at ∷ [])) }
    ensures state { OnOk result ((base : ℕ) (whole : Tree) →
        IsCopying from.now base whole to.old met.old copies.old.items
        (left.old.items ++ Term at ∷ []) →
        IsCopying from.now base whole to.new met.new copies.new.items left.new.items) }
    ensures lighter { OnOk result (weight from.now left.new.items <
        weight from.now (left.old.items ++ Term at ∷ [])) }
    ensures grown { OnOk result (Grows to.old to.new) }
    ensures marks { KeepsMarks to.old to.new }
{
    match from.look(at) {
        Look::Var(_) => {
            let copy = to.store_variable(from.number_at(at), met)?;
            copies.push(copy)?;
            Ok(())
        }
        Look::Int(value) => {
            let copy = to.new_int(value)?;
            copies.push(copy)?;
            Ok(())
        }
        Look::Atom(name) => {
            let copy = to.new_atom(name)?;
            copies.push(copy)?;
            Ok(())
        }
        Look::Cmp(_, arity) => {
            left.push(Task::Compound(at))?;
            push_arguments(from, at, arity, left)?;
            Ok(())
        }
    }
}

// Puts tasks last for a compound's arguments, the first after all others.
fn push_arguments(from: &Heap, at: Ref, arity: u8, left: &mut Vec<Task>) -> Result<(), AllocError>
    requires inside { at < cell_count from.now }
    requires arity { arity ≡ length (arguments_of (stands_for from.now at)) }
    ensures { OnOk result ((args : List ℕ) × ((left.new.items ≡
        left.old.items ++ map Term (reverse args)) × AreCells (cell_count from.now) args ×
        (map (stands_for from.now) args ≡ arguments_of (stands_for from.now at)))) }
{
    let mut i = arity;
    while i > 0 {
        i -= 1;
        left.push(Task::Term(from.arg(at, i)))?;
    }
    Ok(())
}

// Makes a compound of its arguments' copies, which are the last ones.
fn make_compound(
    to: &mut Heap,
    from: &Heap,
    at: Ref,
    copies: &mut Vec<Ref>,
) -> Result<(), AllocError>
    requires { (base : ℕ) × ((whole : Tree) × ((met : MetVariables) × ((left : List Task) ×
        IsCopying from.now base whole to.old met copies.old.items (left ++ Compound at ∷ [])))) }
    ensures state { OnOk result ((base : ℕ) (whole : Tree) (met : MetVariables) (left : List Task) →
        IsCopying from.now base whole to.old met copies.old.items (left ++ Compound at ∷ []) →
        IsCopying from.now base whole to.new met copies.new.items left) }
    ensures grown { OnOk result (Grows to.old to.new) }
    ensures marks { KeepsMarks to.old to.new }
{
    match from.look(at) {
        Look::Cmp(name, arity) => {
            let first = copies.len() - arity as usize;
            let made = to.new_cmp(name, &copies[first..])?;
            copies.truncate(first);
            copies.push(made)?;
            Ok(())
        }
        _ => unreachable!(),
    }
}
