//! What type a cell's term has. No call takes memory.
ghost use Rattle.std.specs.Prelude.{◌≡◌, ◌<◌, ◌||◌, false};
ghost use Rattle.ml_heap.specs.Changes.{cell_count, stands_for};
ghost use Rattle.ml_search.specs.ListTerms.{is_nil};
ghost use Rattle.ml_search.specs.Program.{arity_of};
ghost use Rattle.ml_search.specs.TypeTests.{is_atom, is_compound, is_integer, is_negative};
ghost use Rattle.ml_search.specs.TypeTests.{is_over, is_variable, number_of};

use ml_heap::{Heap, Look, Ref};

// Whether it is a variable.
pub(crate) fn is_variable(heap: &Heap, at: Ref) -> bool
    requires { at < cell_count heap.now }
    ensures { result ≡ is_variable (stands_for heap.now at) }
{
    match heap.look(at) {
        Look::Var(_) => true,
        Look::Int(_) => false,
        Look::Atom(_) => false,
        Look::Cmp(_, _) => false,
    }
}

// Whether one of two is a variable.
pub(crate) fn is_either_variable(heap: &Heap, a: Ref, b: Ref) -> bool
    requires a_inside { a < cell_count heap.now }
    requires b_inside { b < cell_count heap.now }
    ensures { result
        ≡ (is_variable (stands_for heap.now a) || is_variable (stands_for heap.now b)) }
{
    is_variable(heap, a) || is_variable(heap, b)
}

// Whether it is an integer.
pub(crate) fn is_integer(heap: &Heap, at: Ref) -> bool
    requires { at < cell_count heap.now }
    ensures { result ≡ is_integer (stands_for heap.now at) }
{
    match heap.look(at) {
        Look::Var(_) => false,
        Look::Int(_) => true,
        Look::Atom(_) => false,
        Look::Cmp(_, _) => false,
    }
}

// Whether it is an atom.
pub(crate) fn is_atom(heap: &Heap, at: Ref) -> bool
    requires { at < cell_count heap.now }
    ensures { result ≡ is_atom (stands_for heap.now at) }
{
    match heap.look(at) {
        Look::Var(_) => false,
        Look::Int(_) => false,
        Look::Atom(_) => true,
        Look::Cmp(_, _) => false,
    }
}

// Whether it is a compound.
pub(crate) fn is_compound(heap: &Heap, at: Ref) -> bool
    requires { at < cell_count heap.now }
    ensures { result ≡ is_compound (stands_for heap.now at) }
{
    match heap.look(at) {
        Look::Var(_) => false,
        Look::Int(_) => false,
        Look::Atom(_) => false,
        Look::Cmp(_, _) => true,
    }
}

// Whether it is a negative integer.
pub(crate) fn is_negative(heap: &Heap, at: Ref) -> bool
    requires { at < cell_count heap.now }
    ensures { result ≡ is_negative (stands_for heap.now at) }
{
    match heap.look(at) {
        Look::Var(_) => false,
        Look::Int(v) => v < 0,
        Look::Atom(_) => false,
        Look::Cmp(_, _) => false,
    }
}

// Whether it is an integer over a number.
pub(crate) fn is_over(heap: &Heap, number: u8, at: Ref) -> bool
    requires { at < cell_count heap.now }
    ensures { result ≡ is_over number (stands_for heap.now at) }
{
    match heap.look(at) {
        Look::Var(_) => false,
        Look::Int(v) => i64::from(number) < v,
        Look::Atom(_) => false,
        Look::Cmp(_, _) => false,
    }
}

// Whether it is `[]`.
pub(crate) fn is_nil(heap: &Heap, at: Ref) -> bool
    requires { at < cell_count heap.now }
    ensures { result ≡ is_nil (stands_for heap.now at) }
{
    match heap.look(at) {
        Look::Var(_) => false,
        Look::Int(_) => false,
        Look::Atom(name) => name.as_slice() == b"[]".as_slice(),
        Look::Cmp(_, _) => false,
    }
}

// How many arguments it has, which only a compound has.
pub(crate) fn arity_at(heap: &Heap, at: Ref) -> u8
    requires { at < cell_count heap.now }
    ensures { result ≡ arity_of (stands_for heap.now at) }
{
    match heap.look(at) {
        Look::Var(_) => 0,
        Look::Int(_) => 0,
        Look::Atom(_) => 0,
        Look::Cmp(_, arity) => arity,
    }
}

// The number from 0 to 255 that it is, and 0 where it is no integer.
pub(crate) fn number_at(heap: &Heap, at: Ref) -> u8
    requires inside { at < cell_count heap.now }
    requires not_negative { is_negative (stands_for heap.now at) ≡ false }
    requires small { is_over 255 (stands_for heap.now at) ≡ false }
    ensures { result ≡ number_of (stands_for heap.now at) }
{
    match heap.look(at) {
        Look::Var(_) => 0,
        Look::Int(v) => v as u8,
        Look::Atom(_) => 0,
        Look::Cmp(_, _) => 0,
    }
}
