//! Memory: a heap and what grows beside it.
ghost use Rattle.std.specs.Prelude.{◌≡◌, ◌+◌, ◌++◌, ◌∷◌, [], length, slice_get, IfOk, OnErr, OnOk};
ghost use Rattle.ml_stack.specs.Memories.{IsMoment, memory_of, now_of, with_frame};

use crate::frame::{Frame, FrameLink};
use crate::moment::Moment;
use ml_compile::Code;
use ml_heap::{Heap, Ref};
use std::alloc::{AllocError, Global};
use std::marker::Model;

/// What a machine keeps beside its choice points. It grows, and goes back to a moment. Contracts
/// see the heap's changes and the four lists.
#[derive(Drop)]
pub struct Memory {
    /// The cells of all terms.
    pub heap: Heap,
    /// The frames of continuations.
    pub frames: Vec<Frame>,
    /// The cells of variables, one environment behind another.
    pub slots: Vec<Ref>,
    /// The arguments of calls whose clauses are still tried.
    pub saved: Vec<Ref>,
    /// The bodies that were compiled at run time.
    pub codes: Vec<Code>,
}

impl Model for Memory {
    ghost use Rattle.ml_stack.specs.Memories.{Contents};

    ghost Value = { Contents };

    ghost view = { λ m. record {
      heap = m.heap;
      frames = m.frames.items;
      slots = m.slots.items;
      saved = m.saved.items;
      codes = m.codes.items;
    } };
}

impl Memory {
    /// A memory with nothing in it.
    pub fn new(alloc: Global) -> Memory
        ensures { result ≡ record { heap = []; frames = []; slots = []; saved = []; codes = [] } }
    {
        Memory {
            heap: Heap::new(alloc),
            frames: Vec::new(alloc),
            slots: Vec::new(alloc),
            saved: Vec::new(alloc),
            codes: Vec::new(alloc),
        }
    }

    /// The present moment. It takes no memory.
    pub fn now(&self) -> Moment
        ensures { result ≡ now_of self.now }
    {
        Moment {
            mark: self.heap.mark(),
            frames: self.frames.len(),
            slots: self.slots.len(),
            saved: self.saved.len(),
            codes: self.codes.len(),
        }
    }

    /// Goes back to a moment: the heap is undone to its mark, and what came behind it is cut off.
    pub fn go_back(&mut self, moment: &Moment)
        requires { IsMoment self.old moment.now }
        ensures { self.new ≡ memory_of self.old moment.now }
    {
        self.heap.undo_to(moment.mark);
        self.frames.truncate(moment.frames);
        self.slots.truncate(moment.slots);
        self.saved.truncate(moment.saved);
        self.codes.truncate(moment.codes);
    }

    /// The frame at a place, from 0, if there is one. It takes no memory.
    pub fn frame(&self, place: usize) -> Option<Frame>
        ensures { result ≡ slice_get self.now.frames place }
    {
        self.frames.get(place).copied()
    }

    /// Puts a frame last, and gives the link to it. After a refusal all is as before.
    pub fn push_frame(&mut self, frame: Frame) -> Result<FrameLink, AllocError>
        ensures frames { OnOk result (self.new ≡ with_frame self.old frame) }
        ensures link { IfOk result (λ link. link ≡ length self.old.frames + 1) }
        ensures stays { OnErr result (self.new ≡ self.old) }
    {
        self.frames.push(frame)?;
        Ok(self.frames.len())
    }
}
