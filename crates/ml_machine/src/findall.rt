//! Searches inside a `findall/3`.
ghost use Rattle.std.specs.Prelude.{◌≡◌, ◌≢◌, ◌<◌, [], IfOk, List, slice_get};
ghost use Rattle.ml_heap.specs.Changes.{cell_count, HasTree, variable_count};
ghost use Rattle.ml_machine.specs.AnswersGathered.{AreCopied, Gathers};
ghost use Rattle.ml_machine.specs.Positions.{StandsForAny};
ghost use Rattle.ml_machine.specs.Steps.{StepsTo};
ghost use Rattle.ml_search.specs.Program.{Program};
ghost use Rattle.ml_stack.specs.Memories.{CompiledProcedure, tree};
ghost use Rattle.ml_stack.specs.Answers.{AreCopies};
ghost use Rattle.ml_term.specs.Tree.{rename, Tree};

use crate::lists::make_list;
use crate::machine::Machine;
use crate::position::{Position, Then};
use ml_copy::copy_from;
use ml_heap::{Heap, Ref};
use ml_stack::{FindallEnd, Memory, take_back};
use std::alloc::AllocError;

impl Machine {
    /// At the end of a continuation inside a `findall/3`: a copy of the answer is kept, and the
    /// branch is over.
    pub(crate) fn keep_answer(&mut self) -> Result<Then, AllocError>
        requires stands { StandsForAny self.old (Position.Goes 0) }
        requires inside { self.old.stacks.levels.items ≢ [] }
        ensures { IfOk result (λ then. (p : Program) (ps : List CompiledProcedure) →
            StepsTo p ps self.old (Position.Goes 0) self.new then) }
    {
        let Some(wanted) = first_cell(self.stacks.terms.as_slice()) else {
            return Err(AllocError);
        };
        let copy = copy_answer(&mut self.answers, &self.memory, wanted)?;
        let Some(mut level) = self.stacks.levels.pop() else {
            return Err(AllocError);
        };
        level.found.push(copy)?;
        self.stacks.levels.push(level)?;
        Ok(Then::Goes(Position::Fails))
    }

    /// Where nothing is left to choose inside a `findall/3`: the search that waits goes on, where
    /// its list unifies with that of the answers, and else it fails.
    pub(crate) fn end_findall(&mut self) -> Result<Then, AllocError>
        requires stands { StandsForAny self.old Position.Fails }
        requires none { self.old.stacks.choices.items ≡ [] }
        requires inside { self.old.stacks.levels.items ≢ [] }
        ensures { IfOk result (λ then. (p : Program) (ps : List CompiledProcedure) →
            StepsTo p ps self.old Position.Fails self.new then) }
    {
        let Some(end) = take_back(&mut self.memory, &mut self.stacks) else {
            return Err(AllocError);
        };
        let alike = unify_found(&mut self.memory, &self.answers, &end)?;
        self.answers.undo_to(end.kept);
        if alike {
            return Ok(Then::Goes(Position::Goes(end.next)));
        }
        Ok(Then::Goes(Position::Fails))
    }
}

/// Whether the wanted list of a `findall/3` unifies with that of copies of its answers. Where it
/// does, they are unified; else memory is as it was.
fn unify_found(memory: &mut Memory, answers: &Heap, end: &FindallEnd) -> Result<bool, AllocError>
    requires list { end.now.list < cell_count memory.old.heap }
    requires found { (found : List (List Tree)) × AreCopies answers.now end.now.found.items found }
    ensures { IfOk result (λ alike. (found : List (List Tree)) →
        AreCopies answers.now end.now.found.items found →
        Gathers memory.old memory.new end.now.list found alike) }
{
    let before = memory.now();
    let cells = copy_found(&mut memory.heap, answers, end.found.as_slice())?;
    let made = make_list(&mut memory.heap, cells.as_slice())?;
    let alike = memory.heap.unify(end.list, made)?;
    if alike {
        return Ok(true);
    }
    memory.go_back(&before);
    Ok(false)
}

/// Copies of kept answers, a cell for each.
fn copy_found(heap: &mut Heap, answers: &Heap, found: &[Ref]) -> Result<Vec<Ref>, AllocError>
    requires { (all : List (List Tree)) × AreCopies answers.now found.now all }
    ensures { IfOk result (λ cells. (all : List (List Tree)) →
        AreCopies answers.now found.now all → AreCopied heap.old heap.new cells.items all) }
{
    let mut cells = Vec::new(heap.allocator());
    for answer in found {
        let copy = copy_from(heap, answers, *answer)?;
        cells.push(copy)?;
    }
    Ok(cells)
}

// The first of some cells.
fn first_cell(cells: &[Ref]) -> Option<Ref>
    ensures { result ≡ slice_get cells.now 0 }
{
    cells.get(0).copied()
}

/// A copy of a cell's term among the answers. After a refusal these are as they were.
fn copy_answer(answers: &mut Heap, memory: &Memory, cell: Ref) -> Result<Ref, AllocError>
    requires { cell < cell_count memory.now.heap }
    ensures { IfOk result (λ r. HasTree answers.old answers.new r
        (rename (variable_count answers.old) (tree memory.now cell))) }
{
    let copy = copy_from(answers, &memory.heap, cell)?;
    Ok(copy)
}
