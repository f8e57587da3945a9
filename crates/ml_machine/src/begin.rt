//! The beginning of a search.
ghost use Rattle.std.specs.Prelude.{◌≡◌, ◌++◌, ◌<◌, [], ◌∷◌, cond, length, map, slice_index};
ghost use Rattle.std.specs.Prelude.{IfOk, List, OnOk};
ghost use Rattle.std.specs.List.{All, filter};
ghost use Rattle.ml_asking.specs.Asking.{go_on};
ghost use Rattle.ml_compile.specs.Spells.{SpellsClause};
ghost use Rattle.ml_machine.specs.Begun.{goal_clause, IsGoalEntered, no_contents, search_begun};
ghost use Rattle.ml_machine.specs.Positions.{IsAt};
ghost use Rattle.ml_search.specs.ClauseSeen.{clause_seen};
ghost use Rattle.ml_search.specs.GoalSeen.{goal_seen};
ghost use Rattle.ml_search.specs.Session.{is_shown};
ghost use Rattle.ml_stack.specs.Memories.{CompiledProcedure};
ghost use Rattle.ml_stack.specs.declared.frame.At.{At};

use crate::machine::Machine;
use crate::position::Position;
use ml_compile::{Code, compile_clause};
use ml_heap::{Heap, Ref};
use ml_match::enter;
use ml_search::{Clause, Goal};
use ml_stack::{At, CodeName, Memory, Stacks};
use ml_term::{Name, Term};
use std::alloc::{AllocError, Global};

impl Machine {
    /// A machine at the beginning of a goal's search, with so many inferences left, and where it
    /// stands. It asks for the terms of the goal's shown variables, in their order.
    pub fn begin(alloc: Global, goal: &Goal, left: u32) -> Result<(Machine, Position), AllocError>
        ensures { IfOk result (λ begun. (ps : List CompiledProcedure) →
            IsAt ps begun.0 [] begun.1 (go_on (search_begun (goal_seen goal.now) left))) }
    {
        let mut memory = Memory::new(alloc);
        let at = enter_goal(alloc, &mut memory, goal)?;
        let terms = asked_cells(alloc, &memory, goal)?;
        let machine = Machine {
            alloc,
            memory,
            stacks: Stacks {
                choices: Vec::new(alloc),
                terms,
                levels: Vec::new(alloc),
            },
            answers: Heap::new(alloc),
            left,
            cells: Vec::new(alloc),
            todo: Vec::new(alloc),
        };
        Ok((machine, Position::Runs(at)))
    }
}

/// Enters a goal in an empty memory, as the body of a clause without arguments, and gives the place
/// where it begins.
fn enter_goal(alloc: Global, memory: &mut Memory, goal: &Goal) -> Result<At, AllocError>
    requires { memory.old ≡ no_contents }
    ensures { IfOk result (λ at. IsGoalEntered memory.new (goal_seen goal.now) at) }
{
    let code = goal_code(alloc, goal)?;
    let mut todo = Vec::new(alloc);
    let entered = enter(
        &mut memory.heap,
        &mut memory.slots,
        &mut todo,
        code.as_slice(),
        &[],
    )?;
    let Some(place) = entered else {
        return Err(AllocError);
    };
    memory.codes.push(code)?;
    Ok(At {
        code: CodeName::Called(0),
        place,
        env: 0,
        height: 0,
        next: 0,
    })
}

// The code of a goal as the body of a clause.
fn goal_code(alloc: Global, goal: &Goal) -> Result<Code, AllocError>
    ensures { IfOk result (λ code. SpellsClause code (goal_clause (goal_seen goal.now))) }
{
    let clause = clause_of(alloc, goal)?;
    let code = compile_clause(alloc, &clause)?;
    Ok(code)
}

// A goal as the body of a clause, whose head is an atom.
fn clause_of(alloc: Global, goal: &Goal) -> Result<Clause, AllocError>
    ensures { IfOk result (λ clause. clause_seen clause ≡ goal_clause (goal_seen goal.now)) }
{
    let head = Term::Atom(Name::new(alloc, b"goal".as_slice())?);
    let body = goal.term.copy_of(alloc)?;
    Ok(Clause::new(head, body))
}

// The cells of the shown variables of a goal that was entered.
fn asked_cells(alloc: Global, memory: &Memory, goal: &Goal) -> Result<Vec<Ref>, AllocError>
    requires { (at : At) × IsGoalEntered memory.now (goal_seen goal.now) at }
    ensures { IfOk result (λ cells. cells.items
        ≡ map (λ e. slice_index memory.now.slots e.1) (filter is_shown goal.now.names)) }
{
    shown_cells(alloc, memory.slots.as_slice(), goal.names.as_slice())
}

// The cells that slots have for those of some variables that are shown.
fn shown_cells(alloc: Global, slots: &[Ref], names: &[(Name, u32)]) -> Result<Vec<Ref>, AllocError>
    requires { All (λ e. e.1 < length slots.now) names.now }
    ensures { IfOk result (λ cells. cells.items
        ≡ map (λ e. slice_index slots.now e.1) (filter is_shown names.now)) }
{
    let mut cells = Vec::new(alloc);
    for (name, number) in names {
        push_shown(slots, name, *number, &mut cells)?;
    }
    Ok(cells)
}

// Puts the cell that a slot has behind others, if its variable is shown.
fn push_shown(
    slots: &[Ref],
    name: &Name,
    number: u32,
    cells: &mut Vec<Ref>,
) -> Result<(), AllocError>
    requires { number < length slots.now }
    ensures { OnOk result (cells.new.items ≡ cells.old.items
        ++ cond (is_shown (name.now, 0)) (slice_index slots.now number ∷ []) []) }
{
    if is_shown(name.as_slice()) {
        cells.push(slots[number as usize])?;
    }
    Ok(())
}

/// Whether a variable of this name is shown: it is unless its name begins with `_`.
pub fn is_shown(name: &[u8]) -> bool
    ensures { result ≡ is_shown (name.now, 0) }
{
    match name {
        [] => true,
        [b, ..] => *b != b'_',
    }
}
