//! Memory goes back, choices are taken, and a search is put aside and taken back.
use crate::choice::Left;
use crate::choices::{push_choice, take_choice};
use crate::frame::Frame;
use crate::level::{FindallCall, Stacks};
use crate::levels::{put_aside, take_back};
use crate::memory::Memory;
use ml_heap::Heap;
use std::alloc::AllocError;

#[test]
fn memory_goes_back_to_a_moment(rt: HostRuntime) -> Result<(), AllocError> {
    let mut memory = Memory::new(rt.alloc());
    memory.push_frame(Frame::Cut(0, 0))?;
    let moment = memory.now();
    memory.push_frame(Frame::Refute(1, 1))?;
    memory.go_back(&moment);
    assert!(rt; matches!(memory.frame(0), Some(Frame::Cut(0, 0))));
    assert!(rt; memory.frame(1).is_none());
    Ok(())
}

#[test]
fn a_choice_is_taken(rt: HostRuntime) -> Result<(), AllocError> {
    let mut memory = Memory::new(rt.alloc());
    let mut choices = Vec::new(rt.alloc());
    push_choice(&memory, &mut choices, Left::Goes(0))?;
    let left = take_choice(&mut memory, &mut choices);
    assert!(rt; matches!(left, Some(Left::Goes(0))));
    assert!(rt; choices.is_empty());
    Ok(())
}

#[test]
fn a_search_is_put_aside_and_taken_back(rt: HostRuntime) -> Result<(), AllocError> {
    let mut memory = Memory::new(rt.alloc());
    let answers = Heap::new(rt.alloc());
    let cell = memory.heap.new_var()?;
    let mut stacks = Stacks {
        choices: Vec::new(rt.alloc()),
        terms: Vec::new(rt.alloc()),
        levels: Vec::new(rt.alloc()),
    };
    let call = FindallCall {
        template: cell,
        list: cell,
        next: 0,
    };
    put_aside(rt.alloc(), &memory, &answers, &mut stacks, &call)?;
    assert!(rt; stacks.terms.len() == 1);
    assert!(rt; stacks.levels.len() == 1);
    let end = take_back(&mut memory, &mut stacks);
    assert!(rt; end.is_some());
    assert!(rt; stacks.terms.is_empty());
    assert!(rt; stacks.levels.is_empty());
    Ok(())
}
