//! Whether a variable occurs in a term. Compounds wait on a worklist, so that no long list needs a
//! deep recursion; what is known to be ground isn't walked.
ghost use Rattle.std.specs.Prelude.{◌≡◌, ◌+◌, ◌<◌, ◌≤◌, ◌||◌, ℕ, true, false, length, IfOk, OnOk};
ghost use Rattle.std.specs.Prelude.{slice_index};
ghost use Rattle.ml_term.specs.Tree.{nodes, occurs};
ghost use Rattle.ml_heap.specs.Changes.{cell_count, stands_for, IsVariable, number};
ghost use Rattle.ml_heap.specs.inside.Rules.{AreInside};
ghost use Rattle.ml_heap.specs.Changes.{AreCells};
ghost use Rattle.ml_heap.specs.inside.Walks.{nodes_at, occurs_at};

use crate::cell::Cell;
use crate::heap::Heap;
use crate::place::Ref;
use std::alloc::AllocError;

impl Heap {
    // Whether an unbound variable occurs in the term of a cell.
    pub(crate) fn occurs_in(&self, var: Ref, at: Ref) -> Result<bool, AllocError>
        requires var_inside { var < cell_count self.now }
        requires at_inside { at < cell_count self.now }
        requires unbound { IsVariable (stands_for self.now var) }
        ensures { IfOk result (λ found. found
            ≡ occurs (number (stands_for self.now var)) (stands_for self.now at)) }
    {
        let number = self.number_at(var);
        let mut left = Vec::new(self.allocator());
        if self.walk(number, at.place(), &mut left)? {
            return Ok(true);
        }
        while let Some(at) = left.pop() {
            if self.walk(number, at, &mut left)? {
                return Ok(true);
            }
        }
        Ok(false)
    }

    // Whether a cell stands for a variable or has it as an argument. The compounds among the
    // arguments are put last, to be walked.
    fn walk(&self, number: u32, at: usize, left: &mut Vec<usize>) -> Result<bool, AllocError>
        requires { at < cell_count self.now }
        ensures found { IfOk result (λ found. found ≡ true →
            occurs number (stands_for self.now at) ≡ true) }
        ensures left { IfOk result (λ found. found ≡ false →
            occurs_at self.now number left.new.items ≡
            (occurs_at self.now number left.old.items || occurs number (stands_for self.now at))) }
        ensures inside { OnOk result (AreCells (cell_count self.now) left.old.items →
            AreCells (cell_count self.now) left.new.items) }
        ensures fewer { IfOk result (λ found. found ≡ false →
            nodes_at self.now left.new.items < nodes_at self.now left.old.items
            + nodes (stands_for self.now at)) }
    {
        match self.end_at(Ref::at(at)).1 {
            Cell::Unbound(n) => Ok(number == *n),
            Cell::Cmp(_, args, ground) => {
                if *ground {
                    return Ok(false);
                }
                Ok(self.meet_all(number, args.as_slice(), left)?)
            }
            Cell::Bound(_, _) => Ok(false),
            Cell::Int(_) => Ok(false),
            Cell::Atom(_) => Ok(false),
        }
    }

    // Whether one of some cells stands for a variable. Compounds among them are put last, the first
    // after all others.
    fn meet_all(
        &self,
        number: u32,
        places: &[usize],
        left: &mut Vec<usize>,
    ) -> Result<bool, AllocError>
        requires { AreInside self.now places.now }
        ensures found { IfOk result (λ found. found ≡ true →
            occurs_at self.now number places.now ≡ true) }
        ensures left { IfOk result (λ found. found ≡ false →
            occurs_at self.now number left.new.items ≡
            (occurs_at self.now number left.old.items || occurs_at self.now number places.now)) }
        ensures inside { OnOk result (AreCells (cell_count self.now) left.old.items →
            AreCells (cell_count self.now) left.new.items) }
        ensures few { IfOk result (λ found. found ≡ false →
            nodes_at self.now left.new.items ≤ nodes_at self.now left.old.items
            + nodes_at self.now places.now) }
    {
        let mut i = places.len();
        while i > 0 {
            i -= 1;
            if self.meet(number, places[i], left)? {
                return Ok(true);
            }
        }
        Ok(false)
    }

    // Whether a cell stands for a variable. A compound that isn't known to be ground is put last.
    fn meet(&self, number: u32, at: usize, left: &mut Vec<usize>) -> Result<bool, AllocError>
        requires { at < cell_count self.now }
        ensures found { IfOk result (λ found. found ≡ true →
            occurs number (stands_for self.now at) ≡ true) }
        ensures left { IfOk result (λ found. found ≡ false →
            occurs_at self.now number left.new.items ≡
            (occurs_at self.now number left.old.items || occurs number (stands_for self.now at))) }
        ensures inside { OnOk result (AreCells (cell_count self.now) left.old.items →
            AreCells (cell_count self.now) left.new.items) }
        ensures few { IfOk result (λ found. found ≡ false →
            nodes_at self.now left.new.items ≤ nodes_at self.now left.old.items
            + nodes (stands_for self.now at)) }
    {
        match self.end_at(Ref::at(at)).1 {
            Cell::Unbound(n) => Ok(*n == number),
            Cell::Cmp(_, _, ground) => {
                if *ground {
                    return Ok(false);
                }
                left.push(at)?;
                Ok(false)
            }
            Cell::Bound(_, _) => Ok(false),
            Cell::Int(_) => Ok(false),
            Cell::Atom(_) => Ok(false),
        }
    }
}
