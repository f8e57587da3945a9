//! The line of an answer.
ghost use Rattle.std.specs.Prelude.{◌≡◌, ◌++◌, [], ◌∷◌, cond, false, true, Err, IfOk, length, List};
ghost use Rattle.std.specs.Prelude.{map, OnOk, take};
ghost use Rattle.std.specs.List.{filter, list_any};
ghost use Rattle.ml_heap.specs.declared.stop.TreeStop.TheVariants as tree_stop;
ghost use Rattle.ml_search.specs.Errors.{is_too_large};
ghost use Rattle.ml_search.specs.GoalSeen.{goal_seen};
ghost use Rattle.ml_search.specs.Session.{is_shown, shown_names};
ghost use Rattle.ml_solve.specs.inside.Searching.{HasAnswerLine, StandsForAnswer};
ghost use Rattle.ml_term.specs.Seen.{seen};
ghost use Rattle.ml_term.specs.Tree.{Tree};

use ml_heap::TreeStop;
use ml_machine::{Machine, is_shown};
use ml_raise::{Limit, resource_error};
use ml_search::Goal;
use ml_term::{Name, Term};
use ml_writer::{LineStop, Lines};
use std::alloc::{AllocError, Global};

/// Writes the line of the answer that a machine has. Where a limit is passed nothing is written,
/// and the term that is raised in its place is the result.
pub(crate) fn write_answer(
    alloc: Global,
    machine: &Machine,
    goal: &Goal,
    out: &mut Lines,
) -> Result<Option<Term>, AllocError>
    requires { (ts : List Tree) × StandsForAnswer machine.now ts }
    ensures { IfOk result (λ raised. (ts : List Tree) → StandsForAnswer machine.now ts →
        HasAnswerLine (goal_seen goal.now) ts out.old out.new raised) }
{
    match bindings(alloc, machine, goal.names.as_slice()) {
        Ok(bindings) => write_line(alloc, bindings.as_slice(), goal, out),
        Err(TreeStop::TooLarge) => {
            let raised = resource_error(alloc, Limit::TermNodes)?;
            Ok(Some(raised))
        }
        Err(TreeStop::OutOfMemory) => Err(AllocError),
    }
}

// Writes the line of these names with their terms, none of which is too large.
fn write_line(
    alloc: Global,
    bindings: &[(Name, Term)],
    goal: &Goal,
    out: &mut Lines,
) -> Result<Option<Term>, AllocError>
    requires { map (λ b. b.0) bindings.now ≡ map (λ e. e.0) (shown_names (goal_seen goal.now)) }
    ensures { IfOk result (λ raised. (ts : List Tree) → map (λ b. seen b.1) bindings.now ≡ ts →
        list_any is_too_large ts ≡ false →
        HasAnswerLine (goal_seen goal.now) ts out.old out.new raised) }
{
    let _ = goal;
    match out.answer(bindings) {
        Ok(()) => Ok(None),
        Err(LineStop::Full) => {
            let raised = resource_error(alloc, Limit::AnswerBytes)?;
            Ok(Some(raised))
        }
        Err(LineStop::OutOfMemory) => Err(AllocError),
    }
}

// The shown names of some variables with the terms of an answer. Want of memory is the answer too
// where there are more or fewer terms than names, which doesn't come.
fn bindings(
    alloc: Global,
    machine: &Machine,
    names: &[(Name, u32)],
) -> Result<Vec<(Name, Term)>, TreeStop>
    requires { (ts : List Tree) × StandsForAnswer machine.now ts }
    ensures names { IfOk result (λ bs. map (λ b. b.0) bs.items
        ≡ map (λ e. e.0) (filter is_shown names.now)) }
    ensures terms { IfOk result (λ bs. (ts : List Tree) → StandsForAnswer machine.now ts →
        map (λ b. seen b.1) bs.items ≡ ts) }
    ensures small { IfOk result (λ bs. list_any is_too_large (map (λ b. seen b.1) bs.items)
        ≡ false) }
    ensures too_large { result ≡ Err tree_stop.TooLarge → (ts : List Tree) →
        StandsForAnswer machine.now ts → list_any is_too_large ts ≡ true }
{
    let mut bindings = Vec::new(alloc);
    for (name, _) in names {
        push_binding(alloc, machine, name, &mut bindings)?;
    }
    if bindings.len() != machine.asked_count() {
        return Err(TreeStop::OutOfMemory);
    }
    Ok(bindings)
}

// Puts a name with its term behind others, if it is shown.
fn push_binding(
    alloc: Global,
    machine: &Machine,
    name: &Name,
    bindings: &mut Vec<(Name, Term)>,
) -> Result<(), TreeStop>
    requires { (ts : List Tree) × StandsForAnswer machine.now ts }
    ensures names { OnOk result (map (λ b. b.0) bindings.new.items
        ≡ map (λ b. b.0) bindings.old.items ++ cond (is_shown (name.now, 0)) (name.now ∷ []) []) }
    ensures terms { OnOk result ((ts : List Tree) → StandsForAnswer machine.now ts →
        map (λ b. seen b.1) bindings.old.items ≡ take (length bindings.old.items) ts →
        map (λ b. seen b.1) bindings.new.items ≡ take (length bindings.new.items) ts) }
    ensures small { OnOk result
        (list_any is_too_large (map (λ b. seen b.1) bindings.old.items) ≡ false →
        list_any is_too_large (map (λ b. seen b.1) bindings.new.items) ≡ false) }
    ensures too_large { result ≡ Err tree_stop.TooLarge → (ts : List Tree) →
        StandsForAnswer machine.now ts → list_any is_too_large ts ≡ true }
{
    if !is_shown(name.as_slice()) {
        return Ok(());
    }
    let number = bindings.len();
    if number >= machine.asked_count() {
        return Err(TreeStop::OutOfMemory);
    }
    let term = machine.asked_term(number)?;
    let name = name.copy_of(alloc)?;
    match bindings.push((name, term)) {
        Ok(()) => Ok(()),
        Err(refused) => Err(AllocError::from(refused).into()),
    }
}
