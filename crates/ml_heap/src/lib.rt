//! The heap of a search: cells that stand for terms, and a trail by which every earlier moment can
//! be had back.
//! It stands on the trees and the unification of ml_term. The layer above may use a heap's public
//! calls, whose contracts see the list of what was made and bound: that list says which tree each
//! cell stands for, how many variables were created, and what the heap of each earlier mark is. The
//! invariant: the cells fit these trees now, and did so before each step that is kept, so that
//! undoing a step needs no search; and the trees are terms of the language.
#![tactic(auto)]

mod carries;
mod cell;
mod heap;
mod links;
mod look;
mod marks;
mod met;
mod numbers;
mod occurs;
mod place;
mod stop;
mod store;
mod trees;
mod unify;

pub use carries::{a_new_variable_stands_alone, heaps_carry_their_trees};
pub use heap::Heap;
pub use look::Look;
pub use marks::marks_keep_their_heaps;
pub use met::MetVariables;
pub use numbers::numbers_are_below_the_count;
pub use place::{Mark, Ref};
pub use stop::TreeStop;
