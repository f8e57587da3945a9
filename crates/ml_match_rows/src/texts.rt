//! Clauses and terms of texts.
ghost use Rattle.std.specs.Prelude.{◌≤◌, IfOk, IfSome, IsTrue};
ghost use Rattle.ml_term.specs.Seen.{seen};
ghost use Rattle.ml_term.specs.Tree.{nodes};
ghost use Rattle.ml_term.specs.Valid.{is_valid};

use ml_reader::{ReadStop, read_clauses, read_rules};
use ml_search::Clause;
use ml_term::{MAX_TERM_NODES, Term, is_valid, nodes_up_to};
use std::alloc::{AllocError, Global};

// The most bytes of a text.
const MAX_BYTES: usize = 1000;

/// The first clause of rules.
pub fn clause_in(alloc: Global, text: &[u8]) -> Result<Option<Clause>, AllocError> {
    if text.len() > MAX_BYTES {
        return Ok(None);
    }
    match read_rules(alloc, text) {
        Ok(rules) => match rules.program.clauses.as_slice().first() {
            Some(clause) => Ok(Some(clause.copy_of(alloc)?)),
            None => Ok(None),
        },
        Err(ReadStop::Fault(_)) => Ok(None),
        Err(ReadStop::OutOfMemory) => Err(AllocError),
    }
}

/// The first term of a text.
pub fn term_in(alloc: Global, text: &[u8]) -> Result<Option<Term>, AllocError>
    ensures valid { IfOk result (λ found. IfSome found (λ t. IsTrue (is_valid (seen t)))) }
    ensures small { IfOk result (λ found. IfSome found (λ t. nodes (seen t) ≤ MAX_TERM_NODES)) }
{
    if text.len() > MAX_BYTES {
        return Ok(None);
    }
    match read_clauses(alloc, text) {
        Ok(clauses) => match clauses.as_slice().first() {
            Some(read) => whole(alloc, &read.term),
            None => Ok(None),
        },
        Err(ReadStop::Fault(_)) => Ok(None),
        Err(ReadStop::OutOfMemory) => Err(AllocError),
    }
}

// An equal term, if it is valid and small.
fn whole(alloc: Global, t: &Term) -> Result<Option<Term>, AllocError>
    ensures valid { IfOk result (λ found. IfSome found (λ t. IsTrue (is_valid (seen t)))) }
    ensures small { IfOk result (λ found. IfSome found (λ t. nodes (seen t) ≤ MAX_TERM_NODES)) }
{
    if !is_valid(t) || nodes_up_to(t, MAX_TERM_NODES) > MAX_TERM_NODES {
        return Ok(None);
    }
    let copy = t.copy_of(alloc)?;
    Ok(Some(copy))
}
