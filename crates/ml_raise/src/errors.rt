//! The errors, each as the term that is raised.
ghost use Rattle.std.specs.Prelude.{◌≡◌, ◌<◌, codes, pos, IfOk, IsTrue};
ghost use Rattle.ml_heap.specs.Changes.{cell_count, stands_for};
ghost use Rattle.ml_raise.specs.Causes.{arithmetic_name, domain_name, limit_name, type_name};
ghost use Rattle.ml_search.specs.Errors.{arity_error, domain_error, error_ball, evaluation_error};
ghost use Rattle.ml_search.specs.Errors.{existence_error, indicator, instantiation_error};
ghost use Rattle.ml_search.specs.Errors.{kept_small, permission_error, resource_error, type_error};
ghost use Rattle.ml_term.specs.Names.{is_name};
ghost use Rattle.ml_term.specs.Seen.{seen};
ghost use Rattle.ml_term.specs.Tree.{atom, compound_1, compound_2};
ghost use Rattle.ml_term.specs.Valid.{is_valid};

use crate::cause::{Arithmetic, Domain, TermType};
use crate::limit::Limit;
use crate::small::keep_small;
use ml_heap::{Heap, Ref, TreeStop};
use ml_term::{Args, Name, Term};
use std::alloc::{AllocError, Global};

/// An argument is a variable.
pub fn instantiation_error(alloc: Global) -> Result<Term, AllocError>
    ensures same { IfOk result (λ term. seen term ≡ instantiation_error) }
    ensures valid { IfOk result (λ term. IsTrue (is_valid (seen term))) }
{
    atom(alloc, b"instantiation_error")
}

/// The term of a cell isn't of the wanted type.
pub fn type_error(heap: &Heap, term_type: TermType, culprit: Ref) -> Result<Term, AllocError>
    requires { culprit < cell_count heap.now }
    ensures same { IfOk result (λ term. seen term
        ≡ kept_small (type_error (type_name term_type) (stands_for heap.now culprit))) }
    ensures valid { IfOk result (λ term. IsTrue (is_valid (seen term))) }
{
    blame(heap, b"type_error", term_type.name(), culprit)
}

/// The term of a cell isn't in the wanted domain.
pub fn domain_error(heap: &Heap, domain: Domain, culprit: Ref) -> Result<Term, AllocError>
    requires { culprit < cell_count heap.now }
    ensures same { IfOk result (λ term. seen term
        ≡ kept_small (domain_error (domain_name domain) (stands_for heap.now culprit))) }
    ensures valid { IfOk result (λ term. IsTrue (is_valid (seen term))) }
{
    blame(heap, b"domain_error", domain.name(), culprit)
}

/// A term is no expression; an atom has arity 0.
pub fn evaluable_error(alloc: Global, name: &Name, arity: u8) -> Result<Term, AllocError>
    ensures same { IfOk result (λ term. seen term
        ≡ type_error (codes "evaluable") (indicator name.now arity)) }
    ensures valid { IfOk result (λ term. IsTrue (is_valid (seen term))) }
{
    let culprit = indicator(alloc, name, arity)?;
    pair(alloc, b"type_error", atom(alloc, b"evaluable")?, culprit)
}

/// A compound would have more than 255 arguments.
pub fn arity_error(alloc: Global) -> Result<Term, AllocError>
    ensures same { IfOk result (λ term. seen term ≡ arity_error) }
    ensures valid { IfOk result (λ term. IsTrue (is_valid (seen term))) }
{
    single(alloc, b"representation_error", b"max_arity")
}

/// An expression has no value.
pub fn evaluation_error(alloc: Global, cause: Arithmetic) -> Result<Term, AllocError>
    ensures same { IfOk result (λ term. seen term
        ≡ evaluation_error (arithmetic_name cause)) }
    ensures valid { IfOk result (λ term. IsTrue (is_valid (seen term))) }
{
    single(alloc, b"evaluation_error", cause.name())
}

/// A limit is passed.
pub fn resource_error(alloc: Global, limit: Limit) -> Result<Term, AllocError>
    ensures same { IfOk result (λ term. seen term ≡ resource_error (limit_name limit)) }
    ensures valid { IfOk result (λ term. IsTrue (is_valid (seen term))) }
{
    single(alloc, b"resource_error", limit.name())
}

/// There is no predicate of this name and arity.
pub fn existence_error(alloc: Global, name: &Name, arity: u8) -> Result<Term, AllocError>
    ensures same { IfOk result (λ term. seen term ≡ existence_error name.now arity) }
    ensures valid { IfOk result (λ term. IsTrue (is_valid (seen term))) }
{
    let culprit = indicator(alloc, name, arity)?;
    pair(
        alloc,
        b"existence_error",
        atom(alloc, b"procedure")?,
        culprit,
    )
}

/// The predicate of this name and arity can't be changed in this way.
pub fn permission_error(alloc: Global, name: &Name, arity: u8) -> Result<Term, AllocError>
    ensures same { IfOk result (λ term. seen term ≡ permission_error name.now arity) }
    ensures valid { IfOk result (λ term. IsTrue (is_valid (seen term))) }
{
    let culprit = indicator(alloc, name, arity)?;
    let action = atom(alloc, b"modify")?;
    let kind = atom(alloc, b"static_procedure")?;
    let args = vec![in alloc; action, kind, culprit]?;
    Ok(Term::Cmp(Name::new(alloc, b"permission_error")?, Args::new(args)))
}

/// The ball of a raised term, which is kept small: `error(Term, Variable)`, where the variable has
/// the next number.
pub fn error_ball(alloc: Global, term: Term, next: u32) -> Result<Term, AllocError>
    requires { IsTrue (is_valid (seen term)) }
    ensures same { IfOk result (λ ball. seen ball ≡ error_ball (seen term) next) }
    ensures valid { IfOk result (λ ball. IsTrue (is_valid (seen ball))) }
{
    let term = keep_small(alloc, term)?;
    pair(alloc, b"error", term, Term::Var(next))
}

// An error about the term of a cell, which is only taken out where it isn't too large.
fn blame(heap: &Heap, error: &[u8], what: &[u8], culprit: Ref) -> Result<Term, AllocError>
    requires inside { culprit < cell_count heap.now }
    requires error { IsTrue (is_name error.now) }
    requires what { IsTrue (is_name what.now) }
    ensures same { IfOk result (λ term. seen term
        ≡ kept_small (compound_2 error.now (atom what.now) (stands_for heap.now culprit))) }
    ensures valid { IfOk result (λ term. IsTrue (is_valid (seen term))) }
{
    let alloc = heap.allocator();
    match heap.tree_at(culprit) {
        Ok(term) => {
            let term = pair(alloc, error, atom(alloc, what)?, term)?;
            Ok(keep_small(alloc, term)?)
        }
        Err(TreeStop::TooLarge) => Ok(resource_error(alloc, Limit::TermNodes)?),
        Err(TreeStop::OutOfMemory) => Err(AllocError),
    }
}

// A predicate as a term.
fn indicator(alloc: Global, name: &Name, arity: u8) -> Result<Term, AllocError>
    ensures same { IfOk result (λ term. seen term ≡ indicator name.now arity) }
    ensures valid { IfOk result (λ term. IsTrue (is_valid (seen term))) }
{
    let name = Term::Atom(name.copy_of(alloc)?);
    pair(alloc, b"/", name, Term::Int(i64::from(arity)))
}

// An atom.
fn atom(alloc: Global, name: &[u8]) -> Result<Term, AllocError>
    requires { IsTrue (is_name name.now) }
    ensures same { IfOk result (λ term. seen term ≡ atom name.now) }
    ensures valid { IfOk result (λ term. IsTrue (is_valid (seen term))) }
{
    Ok(Term::Atom(Name::new(alloc, name)?))
}

// A compound of one argument, an atom.
fn single(alloc: Global, name: &[u8], argument: &[u8]) -> Result<Term, AllocError>
    requires name { IsTrue (is_name name.now) }
    requires argument { IsTrue (is_name argument.now) }
    ensures same { IfOk result (λ term. seen term ≡ compound_1 name.now (atom argument.now)) }
    ensures valid { IfOk result (λ term. IsTrue (is_valid (seen term))) }
{
    let args = vec![in alloc; atom(alloc, argument)?]?;
    Ok(Term::Cmp(Name::new(alloc, name)?, Args::new(args)))
}

// A compound of two arguments.
fn pair(alloc: Global, name: &[u8], t: Term, u: Term) -> Result<Term, AllocError>
    requires name { IsTrue (is_name name.now) }
    requires t { IsTrue (is_valid (seen t)) }
    requires u { IsTrue (is_valid (seen u)) }
    ensures same { IfOk result (λ term. seen term ≡ compound_2 name.now (seen t) (seen u)) }
    ensures valid { IfOk result (λ term. IsTrue (is_valid (seen term))) }
{
    let args = vec![in alloc; t, u]?;
    Ok(Term::Cmp(Name::new(alloc, name)?, Args::new(args)))
}
