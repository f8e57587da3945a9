//! What is read of cells and done to one of them.
ghost use Rattle.std.specs.Prelude.{◌≡◌, ◌<◌, ℕ, List, length, IsTrue, true, false, slice_index};
ghost use Rattle.std.specs.Prelude.{slice_set, IfOk, take, ◌-◌};
ghost use Rattle.ml_term.specs.Tree.{Tree, is_ground};
ghost use Rattle.ml_heap.specs.Changes.{tree_in};
ghost use Rattle.ml_heap.specs.inside.Layout.{cell_in, IsEnd, AreLinked, FitAll, is_known_ground};
ghost use Rattle.ml_heap.specs.inside.Layout.{IsOfUnknown, IsGroundUnmarked, is_of_variable};
ghost use Rattle.ml_heap.specs.inside.Layout.{with_mark, free_cell, cells_before, last_step};
ghost use Rattle.ml_heap.specs.inside.Layout.{numbers_of, IsStepOf};

use crate::cell::{Cell, Step};
use crate::place::Ref;
use std::alloc::{AllocError, Global};

/// The place of the cell at the end of the bindings.
pub fn end_of(cells: &[Cell], at: usize) -> usize
    requires inside { at < length cells.now }
    requires linked { AreLinked cells.now }
    ensures inside { result < length cells.now }
    ensures end { IsEnd (cell_in cells.now result) }
    ensures same { (ts : List Tree) → FitAll ts cells.now → tree_in ts result ≡ tree_in ts at }
{
    let mut end = at;
    while let Cell::Bound(_, next) = &cells[end] {
        end = *next;
    }
    end
}

// Whether a cell is known to be ground without a walk.
fn is_known_ground(cell: &Cell) -> bool
    ensures { result ≡ is_known_ground cell.now }
{
    match cell {
        Cell::Int(_) | Cell::Atom(_) => true,
        Cell::Cmp(_, _, ground) => *ground,
        _ => false,
    }
}

/// Whether a cell is known to stand for a ground term, past bindings.
pub fn is_ground_at(cells: &[Cell], at: usize) -> bool
    requires inside { at < length cells.now }
    requires linked { AreLinked cells.now }
    ensures ground { IsTrue result → (ts : List Tree) → FitAll ts cells.now →
        is_ground (tree_in ts at) ≡ true }
    ensures unknown { result ≡ false → IsOfUnknown cells.now at }
{
    let end = end_of(cells, at);
    is_known_ground(&cells[end])
}

/// Whether some cells are all known to stand for ground terms.
pub fn are_ground(cells: &[Cell], args: &[usize]) -> bool
    requires inside { (i : ℕ) → i < length args.now → slice_index args.now i < length cells.now }
    requires linked { AreLinked cells.now }
    ensures ground { IsTrue result → (ts : List Tree) → FitAll ts cells.now → (i : ℕ) →
        i < length args.now → is_ground (tree_in ts (slice_index args.now i)) ≡ true }
    ensures unknown { result ≡ false →
        (i : ℕ) × (i < length args.now) × IsOfUnknown cells.now (slice_index args.now i) }
{
    for arg in args {
        if !is_ground_at(cells, *arg) {
            return false;
        }
    }
    true
}

/// Whether a compound's cell isn't marked as ground, though all its arguments are known to be.
pub fn is_ground_unmarked(cells: &[Cell], at: usize) -> bool
    requires inside { at < length cells.now }
    requires fits { (ts : List Tree) × FitAll ts cells.now }
    ensures { IsTrue result → IsGroundUnmarked cells.now at }
{
    match &cells[at] {
        Cell::Cmp(_, args, ground) => !*ground && are_ground(cells, args.as_slice()),
        _ => false,
    }
}

/// Marks a compound's cell as ground, or takes the mark away.
pub fn set_mark(cells: &mut Vec<Cell>, at: usize, ground: bool)
    requires { at < length cells.old.items }
    ensures { cells.new.items ≡ slice_set cells.old.items at
        (with_mark ground (cell_in cells.old.items at)) }
{
    if let Cell::Cmp(_, _, mark) = &mut cells[at] {
        *mark = ground;
    }
}

/// Whether a cell is one of a variable.
pub fn is_of_variable(cell: &Cell) -> bool
    ensures { result ≡ is_of_variable cell.now }
{
    matches!(cell, Cell::Unbound(_) | Cell::Bound(_, _))
}

// Makes a bound cell unbound.
fn free(cells: &mut Vec<Cell>, at: usize)
    requires { at < length cells.old.items }
    ensures { cells.new.items ≡ slice_set cells.old.items at
        (free_cell (cell_in cells.old.items at)) }
{
    if let Cell::Bound(n, _) = cells[at] {
        cells[at] = Cell::Unbound(n);
    }
}

// Takes the last cell out, and says whether it was one of a variable.
fn unmake(cells: &mut Vec<Cell>) -> bool
    requires { 0 < length cells.old.items }
    ensures cells { cells.new.items ≡ take (length cells.old.items - 1) cells.old.items }
    ensures variable { result ≡ is_of_variable
        (cell_in cells.old.items (length cells.old.items - 1)) }
{
    let last = cells.len() - 1;
    let variable = is_of_variable(&cells[last]);
    cells.truncate(last);
    variable
}

/// Undoes the latest step, and says how many numbers of variables are free again.
pub fn undo_step(steps: &mut Vec<Step>, cells: &mut Vec<Cell>) -> u32
    requires some { 0 < length steps.old.items }
    requires fits { IsStepOf (last_step steps.old.items) cells.old.items }
    ensures steps { steps.new.items ≡ take (length steps.old.items - 1) steps.old.items }
    ensures cells { cells.new.items ≡ cells_before (last_step steps.old.items) cells.old.items }
    ensures numbers { result ≡ numbers_of (last_step steps.old.items) cells.old.items }
{
    let last = steps.len() - 1;
    let step = steps[last];
    steps.truncate(last);
    match step {
        Step::Made => u32::from(unmake(cells)),
        Step::Binding(var, _) => {
            free(cells, var);
            0
        }
        Step::LeftOut(count) => count,
        Step::Ground(at) => {
            set_mark(cells, at, false);
            0
        }
    }
}

/// The places of some cells.
pub fn places_of(alloc: Global, cells: &[Ref]) -> Result<Vec<usize>, AllocError>
    ensures { IfOk result (λ places. places.items ≡ cells.now) }
{
    let mut places = Vec::new(alloc);
    for cell in cells {
        places.push(cell.place())?;
    }
    Ok(places)
}
