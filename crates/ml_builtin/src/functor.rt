//! `functor/3`.
ghost use Rattle.std.specs.Prelude.{◌≡◌, ◌+◌, ◌<◌, ◌≤◌, ◌∷◌, [], pos, IfOk, OnOk};
ghost use Rattle.std.specs.Prelude.{◌&&◌, length, map, None, true};
ghost use Rattle.ml_term.specs.Tree.{integer};
ghost use Rattle.ml_heap.specs.Changes.{AreCells, cell_count, Grows, HasTree, KeepsMarks};
ghost use Rattle.ml_heap.specs.Changes.{stands_for, variable_count};
ghost use Rattle.ml_search.specs.Builtins.{functor, functor_fault, name_term, new_term};
ghost use Rattle.ml_search.specs.Builtins.{new_variables, unify_result};
ghost use Rattle.ml_search.specs.Program.{arity_of, name_of};
ghost use Rattle.ml_search.specs.TypeTests.{is_integer, is_over, is_variable, number_of};
ghost use Rattle.ml_builtin.specs.Outcomes.{Agrees};
ghost use Rattle.ml_builtin.specs.inside.Faults.{IsFault};

use crate::outcome::Outcome;
use crate::seen_types::{
    arity_at, is_compound, is_either_variable, is_integer, is_negative, is_over, is_variable,
    number_at,
};
use crate::unify::{unify_both, unify_cells};
use ml_heap::{Heap, Look, Ref};
use ml_raise::{Domain, TermType, arity_error, domain_error, instantiation_error, type_error};
use ml_term::{Name, Term};
use std::alloc::AllocError;

// `functor(T, N, A)`.
pub(crate) fn functor(heap: &mut Heap, t: Ref, n: Ref, a: Ref) -> Result<Outcome, AllocError>
    requires t_inside { t < cell_count heap.old }
    requires n_inside { n < cell_count heap.old }
    requires a_inside { a < cell_count heap.old }
    ensures done { IfOk result (λ outcome. Agrees heap.old heap.new
        (functor (stands_for heap.old t) (stands_for heap.old n) (stands_for heap.old a)
        (variable_count heap.old)) outcome) }
    ensures marks { KeepsMarks heap.old heap.new }
{
    if is_variable(heap, t) {
        Ok(make_from_functor(heap, t, n, a)?)
    } else {
        Ok(tell_functor(heap, t, n, a)?)
    }
}

// Unifies a variable with a term that is made of a name and an arity, or raises their first fault.
fn make_from_functor(heap: &mut Heap, t: Ref, n: Ref, a: Ref) -> Result<Outcome, AllocError>
    requires t_inside { t < cell_count heap.old }
    requires n_inside { n < cell_count heap.old }
    requires a_inside { a < cell_count heap.old }
    requires variable { is_variable (stands_for heap.old t) ≡ true }
    ensures done { IfOk result (λ outcome. Agrees heap.old heap.new
        (functor (stands_for heap.old t) (stands_for heap.old n) (stands_for heap.old a)
        (variable_count heap.old)) outcome) }
    ensures marks { KeepsMarks heap.old heap.new }
{
    match functor_fault(heap, n, a)? {
        Some(term) => Ok(Outcome::Raised(term)),
        None => Ok(make_functor(heap, t, n, a)?),
    }
}

// Unifies with the name and the arity of a term.
fn tell_functor(heap: &mut Heap, t: Ref, n: Ref, a: Ref) -> Result<Outcome, AllocError>
    requires t_inside { t < cell_count heap.old }
    requires n_inside { n < cell_count heap.old }
    requires a_inside { a < cell_count heap.old }
    ensures done { IfOk result (λ outcome. Agrees heap.old heap.new
        (unify_result ((stands_for heap.old n, name_term (stands_for heap.old t))
        ∷ (stands_for heap.old a, integer (pos (arity_of (stands_for heap.old t)))) ∷ [])
        (variable_count heap.old)) outcome) }
    ensures marks { KeepsMarks heap.old heap.new }
{
    let arity = arity_at(heap, t);
    let name = name_cell(heap, t)?;
    let arity = heap.new_int(i64::from(arity))?;
    Ok(unify_both(heap, n, name, a, arity)?)
}

// A cell that stands for the name of a term. All other cells stay.
pub(crate) fn name_cell(heap: &mut Heap, t: Ref) -> Result<Ref, AllocError>
    requires { t < cell_count heap.old }
    ensures made { IfOk result (λ r.
        HasTree heap.old heap.new r (name_term (stands_for heap.old t))) }
    ensures counted { OnOk result (variable_count heap.new ≡ variable_count heap.old) }
    ensures marks { KeepsMarks heap.old heap.new }
{
    if !is_compound(heap, t) {
        return Ok(t);
    }
    let name = name_at(heap, t)?;
    Ok(heap.new_atom(&name)?)
}

// The first fault of a name and an arity of which a term is to be made.
fn functor_fault(heap: &Heap, n: Ref, a: Ref) -> Result<Option<Term>, AllocError>
    requires n_inside { n < cell_count heap.now }
    requires a_inside { a < cell_count heap.now }
    ensures { IfOk result (λ fault. IsFault
        (functor_fault (stands_for heap.now n) (stands_for heap.now a)) fault) }
{
    if is_either_variable(heap, n, a) {
        return Ok(Some(instantiation_error(heap.allocator())?));
    }
    if !is_integer(heap, a) {
        return Ok(Some(type_error(heap, TermType::Integer, a)?));
    }
    if is_compound(heap, n) {
        return Ok(Some(type_error(heap, TermType::Atomic, n)?));
    }
    if is_negative(heap, a) {
        return Ok(Some(domain_error(heap, Domain::NotLessThanZero, a)?));
    }
    if is_over(heap, 255, a) {
        return Ok(Some(arity_error(heap.allocator())?));
    }
    if names_by_integer(heap, n, a) {
        return Ok(Some(type_error(heap, TermType::Atom, n)?));
    }
    Ok(None)
}

// Whether a compound is to be named by an integer.
fn names_by_integer(heap: &Heap, n: Ref, a: Ref) -> bool
    requires n_inside { n < cell_count heap.now }
    requires a_inside { a < cell_count heap.now }
    ensures { result
        ≡ (is_over 0 (stands_for heap.now a) && is_integer (stands_for heap.now n)) }
{
    is_over(heap, 0, a) && is_integer(heap, n)
}

// Unifies a term with one that is made of a name and an arity, which have no fault.
fn make_functor(heap: &mut Heap, t: Ref, n: Ref, a: Ref) -> Result<Outcome, AllocError>
    requires t_inside { t < cell_count heap.old }
    requires n_inside { n < cell_count heap.old }
    requires a_inside { a < cell_count heap.old }
    requires sound { functor_fault (stands_for heap.old n) (stands_for heap.old a) ≡ None }
    ensures done { IfOk result (λ outcome. Agrees heap.old heap.new
        (unify_result ((
          stands_for heap.old t,
          new_term (stands_for heap.old n)
              (number_of (stands_for heap.old a)) (variable_count heap.old),
        ) ∷ [])
        (variable_count heap.old + number_of (stands_for heap.old a))) outcome) }
    ensures marks { KeepsMarks heap.old heap.new }
{
    let arity = number_at(heap, a);
    let made = new_term(heap, n, arity)?;
    Ok(unify_cells(heap, t, made)?)
}

// A cell that stands for a term of a name and new variables, at most 255 of them. All other cells
// stay.
fn new_term(heap: &mut Heap, n: Ref, arity: u8) -> Result<Ref, AllocError>
    requires { n < cell_count heap.old }
    ensures made { IfOk result (λ r. HasTree heap.old heap.new r
        (new_term (stands_for heap.old n) arity (variable_count heap.old))) }
    ensures counted { OnOk result (variable_count heap.new ≡ variable_count heap.old + arity) }
    ensures marks { KeepsMarks heap.old heap.new }
{
    if arity == 0 {
        return Ok(n);
    }
    Ok(new_compound(heap, n, arity)?)
}

// A cell that stands for a compound of a term's name and of new variables, 1 to 255 of them. All
// other cells stay.
fn new_compound(heap: &mut Heap, n: Ref, arity: u8) -> Result<Ref, AllocError>
    requires inside { n < cell_count heap.old }
    requires some { 1 ≤ arity }
    ensures made { IfOk result (λ r. HasTree heap.old heap.new r
        (new_term (stands_for heap.old n) arity (variable_count heap.old))) }
    ensures counted { OnOk result (variable_count heap.new ≡ variable_count heap.old + arity) }
    ensures marks { KeepsMarks heap.old heap.new }
{
    let name = name_at(heap, n)?;
    let variables = new_variables(heap, arity)?;
    Ok(heap.new_cmp(&name, variables.as_slice())?)
}

// The name of an atom or a compound, and the empty one of all other terms.
pub(crate) fn name_at(heap: &Heap, n: Ref) -> Result<Name, AllocError>
    requires { n < cell_count heap.now }
    ensures { IfOk result (λ name. name ≡ name_of (stands_for heap.now n)) }
{
    let alloc = heap.allocator();
    match heap.look(n) {
        Look::Var(_) => Ok(Name::new(alloc, b"")?),
        Look::Int(_) => Ok(Name::new(alloc, b"")?),
        Look::Atom(name) => Ok(name.copy_of(alloc)?),
        Look::Cmp(name, _) => Ok(name.copy_of(alloc)?),
    }
}

// Cells of new variables, from the left. All other cells stay.
fn new_variables(heap: &mut Heap, count: u8) -> Result<Vec<Ref>, AllocError>
    ensures many { IfOk result (λ cells. length cells.items ≡ count) }
    ensures inside { IfOk result (λ cells. AreCells (cell_count heap.new) cells.items) }
    ensures stand { IfOk result (λ cells. map (stands_for heap.new) cells.items
        ≡ new_variables (variable_count heap.old) count) }
    ensures grown { OnOk result (Grows heap.old heap.new) }
    ensures counted { OnOk result (variable_count heap.new ≡ variable_count heap.old + count) }
    ensures marks { KeepsMarks heap.old heap.new }
{
    let mut cells = Vec::new(heap.allocator());
    let mut i = 0;
    while i < count {
        let cell = heap.new_var()?;
        cells.push(cell)?;
        i += 1;
    }
    Ok(cells)
}
