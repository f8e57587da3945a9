//! A clause of append/3 is entered with a list as its first argument: the cost is not to depend on
//! the list, whatever its elements are.
use crate::lists::{Elements, list_of};
use crate::round::enter_and_undo;
use ml_compile::compile_clause;
use ml_heap::Heap;
use ml_reader::{ReadStop, read_rules};
use ml_search::Clause;
use std::alloc::{AllocError, Global};

// How often it is done.
const ENTRIES: u32 = 1000000;

// The clause.
const CLAUSE: &[u8] = b"append([H|T], L, [H|R]) :- append(T, L, R).";

/// Enters the clause with a list of so many variables and two other variables, again and again, and
/// says whether that always went well.
pub fn enter(alloc: Global, count: u32) -> Result<bool, AllocError> {
    match clause(alloc)? {
        Some(clause) => enter_clause(alloc, &clause, count),
        None => Ok(false),
    }
}

// The clause of the text.
fn clause(alloc: Global) -> Result<Option<Clause>, AllocError> {
    if CLAUSE.len() > 1000 {
        return Ok(None);
    }
    match read_rules(alloc, CLAUSE) {
        Ok(rules) => match rules.program.clauses.as_slice().first() {
            Some(clause) => Ok(Some(clause.copy_of(alloc)?)),
            None => Ok(None),
        },
        Err(ReadStop::Fault(_)) => Ok(None),
        Err(ReadStop::OutOfMemory) => Err(AllocError),
    }
}

// Enters a clause of three arguments again and again.
fn enter_clause(alloc: Global, clause: &Clause, count: u32) -> Result<bool, AllocError> {
    if clause.head.arity() != 3 {
        return Ok(false);
    }
    let code = compile_clause(alloc, clause)?;
    let mut heap = Heap::new(alloc);
    let first = list_of(alloc, &mut heap, count, Elements::Variables)?;
    let second = heap.new_var()?;
    let third = heap.new_var()?;
    let mut slots = Vec::new(alloc);
    let mut todo = Vec::new(alloc);
    let args = [first, second, third];
    let mut always = true;
    for _ in 0..ENTRIES {
        always &= enter_and_undo(&mut heap, &mut slots, &mut todo, code.as_slice(), &args)?;
    }
    Ok(always)
}
