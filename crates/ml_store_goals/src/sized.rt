//! The checks of sizes.
ghost use Rattle.std.specs.Prelude.{◌≡◌, ◌<◌, false, IfOk, IsTrue, MatchOption, true};
ghost use Rattle.ml_heap.specs.Changes.{cell_count, stands_for};
ghost use Rattle.ml_search.specs.Errors.{is_too_large};
ghost use Rattle.ml_search.specs.Procedures.{is_over_bytes};
ghost use Rattle.ml_search.specs.Program.{clause_term};
ghost use Rattle.ml_term.specs.Seen.{seen};
ghost use Rattle.ml_term.specs.Valid.{is_valid};

use crate::given::Given;
use ml_heap::{Heap, Ref, TreeStop};
use ml_search::MAX_ITEM_BYTES;
use ml_term::{MAX_TERM_NODES, Term, canonical_len_up_to, nodes_up_to};
use std::alloc::AllocError;

/// The terms of a clause's head and of its body.
#[derive(Drop)]
pub(crate) struct ClauseTerms {
    pub head: Term,
    pub body: Term,
}

/// A cell's term, taken out; nothing where it is too large.
pub(crate) fn sized(heap: &Heap, at: Ref) -> Result<Option<Term>, AllocError>
    requires { at < cell_count heap.now }
    ensures term { IfOk result (λ term. MatchOption term
        (is_too_large (stands_for heap.now at) ≡ true)
        (λ t. (seen t ≡ stands_for heap.now at) × IsTrue (is_valid (seen t))
        × (is_too_large (stands_for heap.now at) ≡ false))) }
{
    match heap.tree_at(at) {
        Ok(term) => Ok(Some(term)),
        Err(TreeStop::TooLarge) => Ok(None),
        Err(TreeStop::OutOfMemory) => Err(AllocError),
    }
}

/// The terms of a clause's head and of its body, taken out; nothing where the clause is too large.
pub(crate) fn sized_clause(heap: &Heap, given: Given) -> Result<Option<ClauseTerms>, AllocError>
    requires head { given.head < cell_count heap.now }
    requires body { given.body < cell_count heap.now }
    ensures { IfOk result (λ terms. MatchOption terms
        (is_too_large (clause_term (stands_for heap.now given.head)
        (stands_for heap.now given.body)) ≡ true)
        (λ c. (seen c.head ≡ stands_for heap.now given.head)
        × (seen c.body ≡ stands_for heap.now given.body)
        × IsTrue (is_valid (seen c.head)) × IsTrue (is_valid (seen c.body))
        × (is_too_large (clause_term (seen c.head) (seen c.body)) ≡ false))) }
{
    let Some(head) = sized(heap, given.head)? else {
        return Ok(None);
    };
    let Some(body) = sized(heap, given.body)? else {
        return Ok(None);
    };
    let terms = ClauseTerms { head, body };
    if is_large_clause(&terms) {
        return Ok(None);
    }
    Ok(Some(terms))
}

// Whether a clause is too large. It takes no memory.
fn is_large_clause(terms: &ClauseTerms) -> bool
    ensures { result ≡ is_too_large (clause_term (seen terms.now.head) (seen terms.now.body)) }
{
    let head = nodes_up_to(&terms.head, MAX_TERM_NODES);
    let body = nodes_up_to(&terms.body, MAX_TERM_NODES);
    head + body >= MAX_TERM_NODES
}

/// Whether a term has more canonical bytes than an item may have. It takes no memory.
pub(crate) fn is_over_bytes(t: &Term) -> bool
    ensures { result ≡ is_over_bytes (seen t.now) }
{
    canonical_len_up_to(t, MAX_ITEM_BYTES) > MAX_ITEM_BYTES
}
