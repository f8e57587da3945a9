//! `=../2`.
ghost use Rattle.std.specs.Prelude.{◌≡◌, ◌<◌, ◌≤◌, ◌∷◌, [], IfOk, OnOk, length, map, true};
ghost use Rattle.std.specs.Prelude.{◌++◌, ◌==◌, ◌&&◌, nat_lt, not, None};
ghost use Rattle.ml_term.specs.Keys.{arguments};
ghost use Rattle.ml_term.specs.Tree.{list_of};
ghost use Rattle.ml_heap.specs.Changes.{AreCells, arguments_of, cell_count, HasTree, KeepsMarks};
ghost use Rattle.ml_heap.specs.Changes.{stands_for, variable_count};
ghost use Rattle.ml_search.specs.Builtins.{first_element, name_term, term_of_list, unify_result};
ghost use Rattle.ml_search.specs.Builtins.{univ, univ_fault};
ghost use Rattle.ml_search.specs.ListTerms.{elements, list_end, list_term};
ghost use Rattle.ml_search.specs.TypeTests.{is_atom, is_compound, is_variable};
ghost use Rattle.ml_builtin.specs.Outcomes.{Agrees};
ghost use Rattle.ml_builtin.specs.inside.Faults.{head_fault, IsFault};

use crate::functor::{name_at, name_cell};
use crate::lists::{Elements, elements_of, make_list};
use crate::outcome::Outcome;
use crate::seen_types::{arity_at, is_atom, is_compound, is_nil, is_variable};
use crate::unify::unify_cells;
use ml_heap::{Heap, Ref};
use ml_raise::{Domain, TermType, arity_error, domain_error, instantiation_error, type_error};
use ml_term::Term;
use std::alloc::AllocError;

// `T =.. L`.
pub(crate) fn univ(heap: &mut Heap, t: Ref, l: Ref) -> Result<Outcome, AllocError>
    requires t_inside { t < cell_count heap.old }
    requires l_inside { l < cell_count heap.old }
    ensures done { IfOk result (λ outcome. Agrees heap.old heap.new
        (univ (stands_for heap.old t) (stands_for heap.old l) (variable_count heap.old)) outcome) }
    ensures marks { KeepsMarks heap.old heap.new }
{
    if is_variable(heap, t) {
        Ok(make_from_list(heap, t, l)?)
    } else {
        Ok(tell_term(heap, t, l)?)
    }
}

// Unifies with the list of a term's name and its arguments.
fn tell_term(heap: &mut Heap, t: Ref, l: Ref) -> Result<Outcome, AllocError>
    requires t_inside { t < cell_count heap.old }
    requires l_inside { l < cell_count heap.old }
    ensures done { IfOk result (λ outcome. Agrees heap.old heap.new
        (unify_result ((
          stands_for heap.old l,
          list_term (name_term (stands_for heap.old t)
              ∷ list_of (arguments (stands_for heap.old t))),
        ) ∷ []) (variable_count heap.old)) outcome) }
    ensures marks { KeepsMarks heap.old heap.new }
{
    let list = list_of_term(heap, t)?;
    Ok(unify_cells(heap, l, list)?)
}

// A cell that stands for the list of a term's name and its arguments. All other cells stay.
fn list_of_term(heap: &mut Heap, t: Ref) -> Result<Ref, AllocError>
    requires { t < cell_count heap.old }
    ensures made { IfOk result (λ r. HasTree heap.old heap.new r
        (list_term (name_term (stands_for heap.old t)
        ∷ list_of (arguments (stands_for heap.old t))))) }
    ensures counted { OnOk result (variable_count heap.new ≡ variable_count heap.old) }
    ensures marks { KeepsMarks heap.old heap.new }
{
    let name = name_cell(heap, t)?;
    let mut cells = Vec::new(heap.allocator());
    cells.push(name)?;
    append_arguments(heap, t, &mut cells)?;
    Ok(make_list(heap, cells.as_slice())?)
}

// Puts the cells of a term's arguments last, from the left.
fn append_arguments(heap: &Heap, t: Ref, cells: &mut Vec<Ref>) -> Result<(), AllocError>
    requires { t < cell_count heap.now }
    ensures inside { OnOk result (AreCells (cell_count heap.now) cells.old.items →
        AreCells (cell_count heap.now) cells.new.items) }
    ensures stand { OnOk result (map (stands_for heap.now) cells.new.items
        ≡ map (stands_for heap.now) cells.old.items ++ arguments_of (stands_for heap.now t)) }
{
    for i in 0..arity_at(heap, t) {
        cells.push(heap.arg(t, i))?;
    }
    Ok(())
}

// Unifies a variable with the term of a list, or raises the list's first fault.
fn make_from_list(heap: &mut Heap, t: Ref, l: Ref) -> Result<Outcome, AllocError>
    requires t_inside { t < cell_count heap.old }
    requires l_inside { l < cell_count heap.old }
    requires variable { is_variable (stands_for heap.old t) ≡ true }
    ensures done { IfOk result (λ outcome. Agrees heap.old heap.new
        (univ (stands_for heap.old t) (stands_for heap.old l) (variable_count heap.old)) outcome) }
    ensures marks { KeepsMarks heap.old heap.new }
{
    let found = elements_of(heap, l)?;
    match univ_fault(heap, l, &found)? {
        Some(term) => Ok(Outcome::Raised(term)),
        None => Ok(unify_term(heap, t, l, found.cells.as_slice())?),
    }
}

// Unifies with the term of a list's elements, which has no fault.
fn unify_term(heap: &mut Heap, t: Ref, l: Ref, cells: &[Ref]) -> Result<Outcome, AllocError>
    requires t_inside { t < cell_count heap.old }
    requires l_inside { l < cell_count heap.old }
    requires inside { AreCells (cell_count heap.old) cells.now }
    requires stand { map (stands_for heap.old) cells.now ≡ elements (stands_for heap.old l) }
    requires sound { univ_fault (stands_for heap.old l)
        (first_element (elements (stands_for heap.old l)))
        (length (elements (stands_for heap.old l))) ≡ None }
    ensures done { IfOk result (λ outcome. Agrees heap.old heap.new
        (unify_result ((stands_for heap.old t, term_of_list (elements (stands_for heap.old l)))
        ∷ []) (variable_count heap.old)) outcome) }
    ensures marks { KeepsMarks heap.old heap.new }
{
    let made = term_of_list(heap, cells)?;
    Ok(unify_cells(heap, t, made)?)
}

// The first fault of a list of which a term is to be made.
fn univ_fault(heap: &Heap, l: Ref, found: &Elements) -> Result<Option<Term>, AllocError>
    requires inside { l < cell_count heap.now }
    requires end_inside { found.now.end < cell_count heap.now }
    requires cells_inside { AreCells (cell_count heap.now) found.now.cells.items }
    requires end { stands_for heap.now found.now.end ≡ list_end (stands_for heap.now l) }
    requires cells { map (stands_for heap.now) found.now.cells.items
        ≡ elements (stands_for heap.now l) }
    ensures { IfOk result (λ fault. IsFault
        (univ_fault (stands_for heap.now l) (first_element (elements (stands_for heap.now l)))
        (length (elements (stands_for heap.now l)))) fault) }
{
    if is_variable(heap, found.end) {
        return Ok(Some(instantiation_error(heap.allocator())?));
    }
    if !is_nil(heap, found.end) {
        return Ok(Some(type_error(heap, TermType::List, l)?));
    }
    if found.cells.len() == 0 {
        return Ok(Some(domain_error(heap, Domain::NonEmptyList, l)?));
    }
    Ok(head_fault(heap, found.cells[0], found.cells.len())?)
}

// The first fault of the first of some elements.
fn head_fault(heap: &Heap, head: Ref, count: usize) -> Result<Option<Term>, AllocError>
    requires { head < cell_count heap.now }
    ensures { IfOk result (λ fault. IsFault (head_fault (stands_for heap.now head) count) fault) }
{
    if is_variable(heap, head) {
        return Ok(Some(instantiation_error(heap.allocator())?));
    }
    if is_lone_compound(heap, head, count) {
        return Ok(Some(type_error(heap, TermType::Atomic, head)?));
    }
    if names_by_none(heap, head, count) {
        return Ok(Some(type_error(heap, TermType::Atom, head)?));
    }
    if 256 < count {
        return Ok(Some(arity_error(heap.allocator())?));
    }
    Ok(None)
}

// Whether a compound is the only element.
fn is_lone_compound(heap: &Heap, head: Ref, count: usize) -> bool
    requires { head < cell_count heap.now }
    ensures { result ≡ ((count == 1) && is_compound (stands_for heap.now head)) }
{
    count == 1 && is_compound(heap, head)
}

// Whether a compound is to be named by what is no atom.
fn names_by_none(heap: &Heap, head: Ref, count: usize) -> bool
    requires { head < cell_count heap.now }
    ensures { result ≡ (nat_lt 1 count && not (is_atom (stands_for heap.now head))) }
{
    1 < count && !is_atom(heap, head)
}

// A cell that stands for the term of a list's elements, 1 to 256 of them. All other cells stay.
fn term_of_list(heap: &mut Heap, cells: &[Ref]) -> Result<Ref, AllocError>
    requires inside { AreCells (cell_count heap.old) cells.now }
    requires some { 1 ≤ length cells.now }
    requires few { length cells.now ≤ 256 }
    ensures made { IfOk result (λ r. HasTree heap.old heap.new r
        (term_of_list (map (stands_for heap.old) cells.now))) }
    ensures counted { OnOk result (variable_count heap.new ≡ variable_count heap.old) }
    ensures marks { KeepsMarks heap.old heap.new }
{
    if cells.len() == 1 {
        return Ok(cells[0]);
    }
    let name = name_at(heap, cells[0])?;
    Ok(heap.new_cmp(&name, &cells[1..])?)
}
