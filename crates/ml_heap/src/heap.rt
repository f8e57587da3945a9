//! A heap, its marks and its constructors.
ghost use Rattle.std.specs.Prelude.{◌≡◌, ◌+◌, ◌-◌, ◌<◌, ◌≤◌, ◌∷◌, [], ◌++◌, ℕ, length, drop, map};
ghost use Rattle.std.specs.Prelude.{IfOk, OnOk, OnErr, IsTrue, ◌↔◌, slice_index};
ghost use Rattle.ml_term.specs.Tree.{variable, integer, atom, compound, trees_of};
ghost use Rattle.ml_term.specs.Valid.{is_in_range, is_valid};
ghost use Rattle.ml_heap.specs.declared.cell.Step.TheVariants.{Made};
ghost use Rattle.ml_heap.specs.Changes.{Changes, trees, cell_count, variable_count, stands_for};
ghost use Rattle.ml_heap.specs.Changes.{heap_of_mark, KeepsMarks, HasOneMore, MayBeBound, bind_in};
ghost use Rattle.ml_heap.specs.Changes.{IsVariable, number, arguments_of, tree_in};
ghost use Rattle.ml_heap.specs.Looks.{Shows, Tells};

use crate::cell::{Cell, Step};
use crate::links::{are_ground, end_of, is_ground_unmarked, places_of, set_mark, undo_step};
use crate::look::Look;
use crate::place::{Mark, Ref};
use ml_term::{ArgsOf, Name};
use std::alloc::{AllocError, Global};
use std::marker::Model;

/// Cells that stand for terms, and the trail of what was made and bound. Contracts see the list of
/// these changes, the latest first: it says which tree each cell stands for, how many variables
/// were created, and what the heap of each earlier mark is.
#[derive(Drop)]
pub struct Heap {
    alloc: Global,
    cells: Vec<Cell>,
    steps: Vec<Step>,
    created: u32,
}

impl Model for Heap {
    ghost use Rattle.ml_heap.specs.Changes.{Changes};

    ghost Value = { Changes };

    ghost use Rattle.ml_heap.specs.inside.Layout.{changes_of, IsKept};

    ghost view = { λ h. changes_of h.steps.items h.cells.items };

    ghost invariant = { λ h. IsKept h.steps.items h.cells.items h.created };
}

impl Heap {
    /// A heap with no cells.
    pub fn new(alloc: Global) -> Heap
        ensures { result ≡ [] }
    {
        Heap {
            alloc,
            cells: Vec::new(alloc),
            steps: Vec::new(alloc),
            created: 0,
        }
    }

    /// The present moment. It takes no memory.
    pub fn mark(&self) -> Mark
        ensures { result ≡ length self.now }
    {
        Mark::after(self.steps.len())
    }

    /// An unbound variable that is younger than all others.
    pub fn new_var(&mut self) -> Result<Ref, AllocError>
        ensures made { IfOk result (λ r.
            HasOneMore self.old self.new r (variable (variable_count self.old))) }
        ensures counted { IfOk result (λ r. variable_count self.new ≡ variable_count self.old + 1) }
        ensures refused { OnErr result (self.new ≡ self.old) }
    {
        if self.created == u32::MAX {
            return Err(AllocError);
        }
        let at = Ref::at(self.cells.len());
        push(
            &mut self.cells,
            &mut self.steps,
            Cell::Unbound(self.created),
        )?;
        self.created += 1;
        Ok(at)
    }

    /// A cell that stands for an integer from -2305843009213693952 to 2305843009213693951. All
    /// other cells stay.
    pub fn new_int(&mut self, v: i64) -> Result<Ref, AllocError>
        requires { IsTrue (is_in_range v) }
        ensures made { IfOk result (λ r. HasOneMore self.old self.new r (integer v)) }
        ensures counted { variable_count self.new ≡ variable_count self.old }
        ensures refused { OnErr result (self.new ≡ self.old) }
    {
        let at = Ref::at(self.cells.len());
        push(&mut self.cells, &mut self.steps, Cell::Int(v))?;
        Ok(at)
    }

    /// A cell that stands for an atom. All other cells stay.
    pub fn new_atom(&mut self, name: &Name) -> Result<Ref, AllocError>
        ensures made { IfOk result (λ r. HasOneMore self.old self.new r (atom name.now)) }
        ensures counted { variable_count self.new ≡ variable_count self.old }
        ensures refused { OnErr result (self.new ≡ self.old) }
    {
        let at = Ref::at(self.cells.len());
        let name = name.copy_of(self.alloc)?;
        push(&mut self.cells, &mut self.steps, Cell::Atom(name))?;
        Ok(at)
    }

    /// A cell that stands for a compound of a name and of what its arguments' cells stand for, 1 to
    /// 255 of them. All other cells stay.
    pub fn new_cmp(&mut self, name: &Name, args: &[Ref]) -> Result<Ref, AllocError>
        requires low { 1 ≤ length args.now }
        requires high { length args.now ≤ 255 }
        requires inside { (i : ℕ) → i < length args.now →
            slice_index args.now i < cell_count self.old }
        ensures made { IfOk result (λ r.
            HasOneMore self.old self.new r
            (compound name.now (trees_of (map (stands_for self.old) args.now)))) }
        ensures counted { variable_count self.new ≡ variable_count self.old }
        ensures refused { OnErr result (self.new ≡ self.old) }
    {
        let at = Ref::at(self.cells.len());
        let places = places_of(self.alloc, args)?;
        let ground = are_ground(&self.cells, places.as_slice());
        let name = name.copy_of(self.alloc)?;
        let cell = Cell::Cmp(name, ArgsOf::new(places), ground);
        push(&mut self.cells, &mut self.steps, cell)?;
        Ok(at)
    }

    /// What the cell stands for, past bindings. It takes no memory.
    pub fn look(&self, at: Ref) -> Look<'_>
        requires { at < cell_count self.now }
        ensures shown { Shows self.now (stands_for self.now at) result }
        ensures valid { IsTrue (is_valid (stands_for self.now at)) }
    {
        let end = end_of(&self.cells, at.place());
        match &self.cells[end] {
            Cell::Unbound(_) => Look::Var(Ref::at(end)),
            Cell::Bound(_, _) => unreachable!(),
            Cell::Int(v) => Look::Int(*v),
            Cell::Atom(name) => Look::Atom(name),
            Cell::Cmp(name, args, _) => Look::Cmp(name, args.as_slice().len() as u8),
        }
    }

    /// Argument `i`, from 0. It takes no memory.
    pub fn arg(&self, at: Ref, i: u8) -> Ref
        requires inside { at < cell_count self.now }
        requires compound { i < length (arguments_of (stands_for self.now at)) }
        ensures inside { result < cell_count self.now }
        ensures argument { stands_for self.now result
            ≡ tree_in (arguments_of (stands_for self.now at)) i }
    {
        let end = end_of(&self.cells, at.place());
        match &self.cells[end] {
            Cell::Cmp(_, args, _) => Ref::at(args.as_slice()[i as usize]),
            _ => unreachable!(),
        }
    }

    // The cell at the end of a cell's bindings, by its name and itself. It takes no memory.
    pub(crate) fn end_at(&self, at: Ref) -> (Ref, &Cell)
        requires { at < cell_count self.now }
        ensures inside { result.0 < cell_count self.now }
        ensures same { stands_for self.now result.0 ≡ stands_for self.now at }
        ensures told { Tells self.now (stands_for self.now at) result.1.now }
        ensures valid { IsTrue (is_valid (stands_for self.now at)) }
    {
        let end = end_of(&self.cells, at.place());
        (Ref::at(end), &self.cells[end])
    }

    /// The allocator that the heap was made with.
    pub fn allocator(&self) -> Global {
        self.alloc
    }

    /// The number of an unbound variable. It takes no memory.
    pub fn number_at(&self, at: Ref) -> u32
        requires inside { at < cell_count self.now }
        requires unbound { IsVariable (stands_for self.now at) }
        ensures { result ≡ number (stands_for self.now at) }
    {
        let end = end_of(&self.cells, at.place());
        match &self.cells[end] {
            Cell::Unbound(n) => *n,
            _ => unreachable!(),
        }
    }

    /// Whether the variable of the first cell was created before that of the second. It takes no
    /// memory.
    pub fn is_older(&self, a: Ref, b: Ref) -> bool
        requires a_inside { a < cell_count self.now }
        requires b_inside { b < cell_count self.now }
        requires a_unbound { IsVariable (stands_for self.now a) }
        requires b_unbound { IsVariable (stands_for self.now b) }
        ensures { IsTrue result ↔ (number (stands_for self.now a)
            < number (stands_for self.now b)) }
    {
        self.number_at(a) < self.number_at(b)
    }

    /// Binds an unbound variable that doesn't occur in the other term, and is the younger if that
    /// is a variable: it is replaced in every tree.
    /// After a refusal the heap is as it was.
    pub fn bind(&mut self, var: Ref, to: Ref) -> Result<(), AllocError>
        requires var_inside { var < cell_count self.old }
        requires to_inside { to < cell_count self.old }
        requires free { MayBeBound (stands_for self.old var) (stands_for self.old to) }
        ensures bound { OnOk result (trees self.new
            ≡ bind_in (stands_for self.old var) (stands_for self.old to) (trees self.old)) }
        ensures counted { variable_count self.new ≡ variable_count self.old }
        ensures marks { KeepsMarks self.old self.new }
        ensures refused { OnErr result (self.new ≡ self.old) }
    {
        let var = end_of(&self.cells, var.place());
        let to = end_of(&self.cells, to.place());
        let Cell::Unbound(n) = self.cells[var] else {
            unreachable!()
        };
        self.steps.push(Step::Binding(var, to))?;
        self.cells[var] = Cell::Bound(n, to);
        Ok(())
    }

    /// How many variables were created: the number of the next one. It takes no memory.
    pub fn count(&self) -> u32
        ensures { result ≡ variable_count self.now }
    {
        self.created
    }

    /// Leaves out so many numbers of variables, as if that many had been created. All cells stay.
    /// After a refusal, for want of memory or of numbers, the heap is as it was.
    pub fn leave_out(&mut self, count: u32) -> Result<(), AllocError>
        ensures trees { trees self.new ≡ trees self.old }
        ensures counted { OnOk result (variable_count self.new ≡ variable_count self.old + count) }
        ensures marks { KeepsMarks self.old self.new }
        ensures refused { OnErr result (self.new ≡ self.old) }
    {
        let Some(created) = self.created.checked_add(count) else {
            return Err(AllocError);
        };
        self.steps.push(Step::LeftOut(count))?;
        self.created = created;
        Ok(())
    }

    // Marks a compound as ground where its arguments are known to be. Every tree stays.
    pub(crate) fn note_ground(&mut self, at: usize) -> Result<(), AllocError>
        requires { at < cell_count self.old }
        ensures trees { trees self.new ≡ trees self.old }
        ensures counted { variable_count self.new ≡ variable_count self.old }
        ensures marks { KeepsMarks self.old self.new }
    {
        if is_ground_unmarked(&self.cells, at) {
            self.steps.push(Step::Ground(at))?;
            set_mark(&mut self.cells, at, true);
        }
        Ok(())
    }

    /// The heap as it was at the mark. No later undo may have gone below it. It takes no memory.
    pub fn undo_to(&mut self, m: Mark)
        requires { m ≤ length self.old }
        ensures { self.new ≡ heap_of_mark self.old m }
    {
        while m.steps() < self.mark().steps() {
            self.undo_one();
        }
    }

    // Undoes the latest change.
    fn undo_one(&mut self)
        requires { 0 < length self.old }
        ensures { self.new ≡ drop 1 self.old }
    {
        self.created -= undo_step(&mut self.steps, &mut self.cells);
    }
}

// Puts a cell last, and the step that made it. After a refusal both vectors have what they had.
fn push(cells: &mut Vec<Cell>, steps: &mut Vec<Step>, cell: Cell) -> Result<(), AllocError>
    ensures made { OnOk result (cells.new.items ≡ cells.old.items ++ cell ∷ []) }
    ensures step { OnOk result (steps.new.items ≡ steps.old.items ++ Made ∷ []) }
    ensures cells_stay { OnErr result (cells.new.items ≡ cells.old.items) }
    ensures steps_stay { OnErr result (steps.new.items ≡ steps.old.items) }
{
    steps.push(Step::Made)?;
    match cells.push(cell) {
        Ok(()) => Ok(()),
        Err(refused) => {
            let _ = steps.pop();
            Err(AllocError::from(refused))
        }
    }
}
