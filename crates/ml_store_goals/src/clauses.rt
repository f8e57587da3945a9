//! The checks of `asserta/1` and `assertz/1`.
ghost use Rattle.std.specs.Prelude.{◌≡◌, ◌<◌, false, IfOk, IsTrue};
ghost use Rattle.ml_heap.specs.Changes.{cell_count, stands_for};
ghost use Rattle.ml_program.specs.LoadedProgram.{program_of};
ghost use Rattle.ml_search.specs.Errors.{is_too_large};
ghost use Rattle.ml_search.specs.Procedures.{assert_fault};
ghost use Rattle.ml_search.specs.Program.{clause_term};
ghost use Rattle.ml_store_goals.specs.inside.Checks.{body_fault, bytes_fault, clause_fault, IsChecked};
ghost use Rattle.ml_term.specs.Seen.{seen};
ghost use Rattle.ml_term.specs.Tree.{rename};
ghost use Rattle.ml_term.specs.Valid.{is_valid};

use crate::checked::{Checked, Listed};
use crate::given::Given;
use crate::predicate::list_at;
use crate::sized::{ClauseTerms, is_over_bytes, sized_clause};
use ml_heap::{Heap, Ref};
use ml_program::Loaded;
use ml_raise::{Limit, TermType, resource_error, type_error};
use ml_search::{is_callable, rename};
use ml_term::{Args, Kind, Name, Term};
use std::alloc::{AllocError, Global};

/// The clause of two cells with its variables numbered anew, where no check applies.
pub(crate) fn clause_at(program: &Loaded, heap: &Heap, given: Given) -> Result<Checked, AllocError>
    requires head { given.head < cell_count heap.now }
    requires body { given.body < cell_count heap.now }
    ensures { IfOk result (λ checked. IsChecked
        (assert_fault (program_of program.now) (stands_for heap.now given.head)
        (stands_for heap.now given.body))
        (rename 0 (clause_term (stands_for heap.now given.head) (stands_for heap.now given.body)))
        checked) }
{
    match list_at(program, Kind::Clauses, heap, given.head)? {
        Listed::Raises(error) => Ok(Checked::Raises(error)),
        Listed::List(_) => clause_of_list(heap, given),
    }
}

// The clause of two cells, whose head's predicate has a list of clauses.
fn clause_of_list(heap: &Heap, given: Given) -> Result<Checked, AllocError>
    requires head { given.head < cell_count heap.now }
    requires body { given.body < cell_count heap.now }
    ensures { IfOk result (λ checked. IsChecked
        (clause_fault (stands_for heap.now given.head) (stands_for heap.now given.body))
        (rename 0 (clause_term (stands_for heap.now given.head) (stands_for heap.now given.body)))
        checked) }
{
    let Some(terms) = sized_clause(heap, given)? else {
        return Ok(Checked::Raises(resource_error(heap.allocator(), Limit::TermNodes)?));
    };
    callable_clause(heap, terms, given.body)
}

// The clause of two terms, if its body is callable. The body stands in a cell too.
fn callable_clause(heap: &Heap, terms: ClauseTerms, body: Ref) -> Result<Checked, AllocError>
    requires inside { body < cell_count heap.now }
    requires body { seen terms.body ≡ stands_for heap.now body }
    requires valid_head { IsTrue (is_valid (seen terms.head)) }
    requires valid_body { IsTrue (is_valid (seen terms.body)) }
    requires small { is_too_large (clause_term (seen terms.head) (seen terms.body)) ≡ false }
    ensures { IfOk result (λ checked. IsChecked (body_fault (seen terms.head) (seen terms.body))
        (rename 0 (clause_term (seen terms.head) (seen terms.body))) checked) }
{
    if !is_callable(&terms.body) {
        return Ok(Checked::Raises(type_error(heap, TermType::Callable, body)?));
    }
    numbered_clause(heap.allocator(), terms)
}

// The clause of two terms with its variables numbered anew, if it has not too many bytes.
fn numbered_clause(alloc: Global, terms: ClauseTerms) -> Result<Checked, AllocError>
    requires valid_head { IsTrue (is_valid (seen terms.head)) }
    requires valid_body { IsTrue (is_valid (seen terms.body)) }
    requires small { is_too_large (clause_term (seen terms.head) (seen terms.body)) ≡ false }
    ensures { IfOk result (λ checked. IsChecked
        (bytes_fault (clause_term (seen terms.head) (seen terms.body)))
        (rename 0 (clause_term (seen terms.head) (seen terms.body))) checked) }
{
    let clause = clause_term(alloc, terms)?;
    if is_over_bytes(&clause) {
        return Ok(Checked::Raises(resource_error(alloc, Limit::ItemBytes)?));
    }
    Ok(Checked::Passes(rename(alloc, &clause, 0)?))
}

// The term of a clause.
fn clause_term(alloc: Global, terms: ClauseTerms) -> Result<Term, AllocError>
    requires head { IsTrue (is_valid (seen terms.head)) }
    requires body { IsTrue (is_valid (seen terms.body)) }
    ensures same { IfOk result (λ term. seen term
        ≡ clause_term (seen terms.head) (seen terms.body)) }
    ensures valid { IfOk result (λ term. IsTrue (is_valid (seen term))) }
{
    let ClauseTerms { head, body } = terms;
    let args = vec![in alloc; head, body]?;
    Ok(Term::Cmp(Name::new(alloc, b":-")?, Args::new(args)))
}
