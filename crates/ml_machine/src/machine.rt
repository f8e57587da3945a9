//! The machine.
ghost use Rattle.std.specs.Prelude.{◌≡◌, [], List};
ghost use Rattle.ml_asking.specs.Asking.{go_on};
ghost use Rattle.ml_machine.specs.Positions.{IsAt, search_of_nothing};
ghost use Rattle.ml_stack.specs.Memories.{CompiledProcedure};

use crate::position::Position;
use ml_heap::{Heap, Ref};
use ml_stack::{Memory, Stacks};
use std::alloc::Global;

/// What runs instructions: its memory and its stacks, a heap for the answers of searches inside a
/// `findall/3`, how many inferences are left, the cells of a goal's arguments while it is called,
/// and room for cells while a clause is entered.
#[derive(Drop)]
pub struct Machine {
    pub(crate) alloc: Global,
    pub(crate) memory: Memory,
    pub(crate) stacks: Stacks,
    pub(crate) answers: Heap,
    pub(crate) left: u32,
    pub(crate) cells: Vec<Ref>,
    pub(crate) todo: Vec<Ref>,
}

impl Machine {
    /// A machine with nothing in its memory and nothing to choose, and so many inferences left.
    /// `stands`: at the end of a continuation it stands for a search that has nothing to do.
    pub fn new(alloc: Global, left: u32) -> Machine
        ensures memory { result.memory
            ≡ record { heap = []; frames = []; slots = []; saved = []; codes = [] } }
        ensures choices { result.stacks.choices.items ≡ [] }
        ensures terms { result.stacks.terms.items ≡ [] }
        ensures levels { result.stacks.levels.items ≡ [] }
        ensures answers { result.answers ≡ [] }
        ensures left { result.left ≡ left }
        ensures stands { (ps : List CompiledProcedure) →
            IsAt ps result [] (Position.Goes 0) (go_on (search_of_nothing left)) }
    {
        Machine {
            alloc,
            memory: Memory::new(alloc),
            stacks: Stacks {
                choices: Vec::new(alloc),
                terms: Vec::new(alloc),
                levels: Vec::new(alloc),
            },
            answers: Heap::new(alloc),
            left,
            cells: Vec::new(alloc),
            todo: Vec::new(alloc),
        }
    }
}
