//! Terms taken out of a heap. A term can be far larger than the cells that it shares, so its nodes
//! are counted first, up to the limit.
ghost use Rattle.std.specs.Prelude.{◌≡◌, ◌<◌, ◌≤◌, ◌+◌, ◌++◌, length, reverse, map, nat_lt, IsTrue};
ghost use Rattle.std.specs.Prelude.{IfOk, OnOk, Err};
ghost use Rattle.ml_term.specs.Limits.{max_term_nodes};
ghost use Rattle.ml_term.specs.Tree.{nodes};
ghost use Rattle.ml_term.specs.Seen.{seen, all_seen};
ghost use Rattle.ml_term.specs.Valid.{is_valid};
ghost use Rattle.ml_heap.specs.Changes.{cell_count, stands_for};
ghost use Rattle.ml_heap.specs.inside.Rules.{AreInside};
ghost use Rattle.ml_heap.specs.Changes.{AreCells};
ghost use Rattle.ml_heap.specs.inside.Walks.{nodes_at};
ghost use Rattle.ml_heap.specs.declared.stop.TreeStop.TheVariants as tree_stop;

use crate::cell::Cell;
use crate::heap::Heap;
use crate::place::Ref;
use crate::stop::TreeStop;
use ml_term::{ArgsOf, MAX_TERM_NODES, Term};
use std::alloc::AllocError;

impl Heap {
    /// The term that a cell stands for, with the heap's numbers of variables. `TooLarge` exactly
    /// where it has over 4,096 nodes, want of memory aside. The heap is only read.
    pub fn tree_at(&self, at: Ref) -> Result<Term, TreeStop>
        requires { at < cell_count self.now }
        ensures taken { IfOk result (λ term. seen term ≡ stands_for self.now at) }
        ensures valid { IfOk result (λ term. IsTrue (is_valid (seen term))) }
        ensures small { OnOk result (nodes (stands_for self.now at) ≤ max_term_nodes) }
        ensures too_large { result ≡ Err tree_stop.TooLarge →
            max_term_nodes < nodes (stands_for self.now at) }
    {
        let (end, _) = self.end_at(at);
        if self.is_too_large(end)? {
            return Err(TreeStop::TooLarge);
        }
        Ok(self.term_at(end.place())?)
    }

    /// Whether a cell's term has over 4,096 nodes. What is shared counts as often as it stands
    /// there.
    /// The heap is only read.
    pub fn is_too_large(&self, at: Ref) -> Result<bool, AllocError>
        requires { at < cell_count self.now }
        ensures { IfOk result (λ large. large
            ≡ nat_lt max_term_nodes (nodes (stands_for self.now at))) }
    {
        let mut left = Vec::new(self.allocator());
        left.push(at.place())?;
        let mut count = 0;
        while let Some(at) = left.pop() {
            count += 1;
            self.push_arguments(at, &mut left)?;
            if count + left.len() > MAX_TERM_NODES {
                return Ok(true);
            }
        }
        Ok(false)
    }

    // Puts the cells of a compound's arguments last, the first after all others. Other cells have
    // none.
    fn push_arguments(&self, at: usize, left: &mut Vec<usize>) -> Result<(), AllocError>
        requires { at < cell_count self.now }
        ensures nodes { OnOk result (nodes_at self.now left.new.items + 1 ≡
            nodes_at self.now left.old.items + nodes (stands_for self.now at)) }
        ensures inside { OnOk result (AreCells (cell_count self.now) left.old.items →
            AreCells (cell_count self.now) left.new.items) }
        ensures few { OnOk result (length left.new.items ≤ length left.old.items + 255) }
    {
        match self.end_at(Ref::at(at)).1 {
            Cell::Cmp(_, args, _) => {
                push_places(left, args.as_slice())?;
                Ok(())
            }
            Cell::Unbound(_) => Ok(()),
            Cell::Bound(_, _) => Ok(()),
            Cell::Int(_) => Ok(()),
            Cell::Atom(_) => Ok(()),
        }
    }

    // The term of a cell.
    #[cycle(terms)]
    fn term_at(&self, at: usize) -> Result<Term, AllocError>
        requires { at < cell_count self.now }
        ensures { IfOk result (λ term. seen term ≡ stands_for self.now at) }
    {
        match self.end_at(Ref::at(at)).1 {
            Cell::Unbound(n) => Ok(Term::Var(*n)),
            Cell::Bound(_, _) => unreachable!(),
            Cell::Int(v) => Ok(Term::Int(*v)),
            Cell::Atom(f) => Ok(Term::Atom(f.copy_of(self.allocator())?)),
            Cell::Cmp(f, args, _) => {
                let name = f.copy_of(self.allocator())?;
                let args = self.terms_at(args.as_slice())?;
                Ok(Term::Cmp(name, ArgsOf::new(args)))
            }
        }
    }

    // The terms of some cells.
    #[cycle(terms)]
    fn terms_at(&self, places: &[usize]) -> Result<Vec<Term>, AllocError>
        requires { AreInside self.now places.now }
        ensures { IfOk result (λ terms. all_seen terms.items
            ≡ map (stands_for self.now) places.now) }
    {
        let mut terms = Vec::new(self.allocator());
        for place in places {
            terms.push(self.term_at(*place)?)?;
        }
        Ok(terms)
    }
}

// Puts cells last, the first after all others.
fn push_places(left: &mut Vec<usize>, places: &[usize]) -> Result<(), AllocError>
    ensures { OnOk result (left.new.items ≡ left.old.items ++ reverse places.now) }
{
    let mut i = places.len();
    while i > 0 {
        i -= 1;
        left.push(places[i])?;
    }
    Ok(())
}
