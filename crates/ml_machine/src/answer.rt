//! What the layer above reads of a machine: the terms of an answer, and the inferences left.
ghost use Rattle.std.specs.Prelude.{◌≡◌, ◌<◌, true, false, Err, IfOk, length, List, slice_get, Some};
ghost use Rattle.std.specs.List.{list_any};
ghost use Rattle.ml_heap.specs.Changes.{cell_count};
ghost use Rattle.ml_heap.specs.declared.stop.TreeStop.TheVariants as tree_stop;
ghost use Rattle.ml_search.specs.Errors.{is_too_large};
ghost use Rattle.ml_stack.specs.Memories.{AreTrees, tree};
ghost use Rattle.ml_term.specs.Seen.{seen};
ghost use Rattle.ml_term.specs.Tree.{Tree};

use crate::machine::Machine;
use ml_heap::{Ref, TreeStop};
use ml_stack::Memory;
use ml_term::Term;

impl Machine {
    /// How many inferences are left. It takes no memory.
    pub fn left(&self) -> u32
        ensures { result ≡ self.now.left }
    {
        self.left
    }

    /// How many terms an answer has. It takes no memory.
    pub fn asked_count(&self) -> usize
        ensures { result ≡ length self.now.stacks.terms.items }
    {
        self.stacks.terms.len()
    }

    /// The term with a number, from 0, of an answer. `TooLarge` exactly where it has over 4,096
    /// nodes, want of memory aside. The machine is only read.
    pub fn asked_term(&self, number: usize) -> Result<Term, TreeStop>
        requires cells { (ts : List Tree)
            × AreTrees self.now.memory self.now.stacks.terms.items ts }
        requires inside { number < length self.now.stacks.terms.items }
        ensures taken { IfOk result (λ term. (ts : List Tree) →
            AreTrees self.now.memory self.now.stacks.terms.items ts →
            slice_get ts number ≡ Some (seen term)) }
        ensures small { IfOk result (λ term. is_too_large (seen term) ≡ false) }
        ensures too_large { result ≡ Err tree_stop.TooLarge → (ts : List Tree) →
            AreTrees self.now.memory self.now.stacks.terms.items ts →
            list_any is_too_large ts ≡ true }
    {
        let cell = self.stacks.terms[number];
        term_of(&self.memory, cell)
    }
}

// The term of a cell.
fn term_of(memory: &Memory, cell: Ref) -> Result<Term, TreeStop>
    requires { cell < cell_count memory.now.heap }
    ensures taken { IfOk result (λ term. seen term ≡ tree memory.now cell) }
    ensures small { IfOk result (λ term. is_too_large (seen term) ≡ false) }
    ensures too_large { result ≡ Err tree_stop.TooLarge →
        is_too_large (tree memory.now cell) ≡ true }
{
    memory.heap.tree_at(cell)
}
