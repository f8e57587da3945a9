//! Each kind of built-in once on its happy path, on cells.
ghost use Rattle.std.specs.Prelude.{◌<◌, ◌≤◌, IfOk, IsTrue, OnOk};
ghost use Rattle.ml_heap.specs.Changes.{cell_count};
ghost use Rattle.ml_term.specs.Names.{is_name};

use ml_builtin::{Binary, Outcome, Plain, Relation, Ternary, run_builtin};
use ml_heap::{Heap, Ref};
use ml_term::Name;
use std::alloc::AllocError;
use std::test::Fail;

// A new variable.
fn variable(heap: &mut Heap) -> Result<Ref, AllocError>
    ensures inside { IfOk result (λ r. r < cell_count heap.new) }
    ensures more { OnOk result (cell_count heap.old ≤ cell_count heap.new) }
{
    Ok(heap.new_var()?)
}

// The integer 2.
fn number(heap: &mut Heap) -> Result<Ref, AllocError>
    ensures inside { IfOk result (λ r. r < cell_count heap.new) }
    ensures more { OnOk result (cell_count heap.old ≤ cell_count heap.new) }
{
    Ok(heap.new_int(2)?)
}

// An atom.
fn atom(heap: &mut Heap, name: &[u8]) -> Result<Ref, AllocError>
    requires named { IsTrue (is_name name.now) }
    ensures inside { IfOk result (λ r. r < cell_count heap.new) }
    ensures more { OnOk result (cell_count heap.old ≤ cell_count heap.new) }
{
    let name = Name::new(heap.allocator(), name)?;
    Ok(heap.new_atom(&name)?)
}

// A compound of two arguments.
fn compound(heap: &mut Heap, name: &[u8], a: Ref, b: Ref) -> Result<Ref, AllocError>
    requires named { IsTrue (is_name name.now) }
    requires a_inside { a < cell_count heap.old }
    requires b_inside { b < cell_count heap.old }
    ensures inside { IfOk result (λ r. r < cell_count heap.new) }
    ensures more { OnOk result (cell_count heap.old ≤ cell_count heap.new) }
{
    let name = Name::new(heap.allocator(), name)?;
    let args = [a, b];
    Ok(heap.new_cmp(&name, &args)?)
}

// Whether a built-in of two arguments succeeds.
fn two(heap: &mut Heap, binary: Binary, a: Ref, b: Ref) -> Result<bool, AllocError>
    requires a_inside { a < cell_count heap.old }
    requires b_inside { b < cell_count heap.old }
{
    let args = [a, b];
    match run_builtin(heap, Plain::Two(binary), &args)? {
        Outcome::Succeeded => Ok(true),
        _ => Ok(false),
    }
}

// Whether a built-in of three arguments succeeds.
fn three(heap: &mut Heap, ternary: Ternary, a: Ref, b: Ref, c: Ref) -> Result<bool, AllocError>
    requires a_inside { a < cell_count heap.old }
    requires b_inside { b < cell_count heap.old }
    requires c_inside { c < cell_count heap.old }
{
    let args = [a, b, c];
    match run_builtin(heap, Plain::Three(ternary), &args)? {
        Outcome::Succeeded => Ok(true),
        _ => Ok(false),
    }
}

#[test]
fn a_built_in_is_found_by_name_and_arity(rt: HostRuntime) -> Result<(), Fail> {
    let name = Name::new(rt.alloc(), b"=..")?;
    assert!(rt; matches!(Plain::of(&name, 2), Some(Plain::Two(Binary::Univ))));
    assert!(rt; Plain::of(&name, 3).is_none());
    Ok(())
}

#[test]
fn a_variable_becomes_a_value(rt: HostRuntime) -> Result<(), Fail> {
    let mut heap = Heap::new(rt.alloc());
    let x = variable(&mut heap)?;
    let n = number(&mut heap)?;
    let sum = compound(&mut heap, b"+", n, n)?;
    assert!(rt; two(&mut heap, Binary::Is, x, sum)?);
    Ok(())
}

#[test]
fn a_variable_is_unifiable(rt: HostRuntime) -> Result<(), Fail> {
    let mut heap = Heap::new(rt.alloc());
    let x = variable(&mut heap)?;
    let a = atom(&mut heap, b"a")?;
    assert!(rt; !two(&mut heap, Binary::NotUnifiable, x, a)?);
    Ok(())
}

#[test]
fn compounds_are_ordered_by_their_arguments(rt: HostRuntime) -> Result<(), Fail> {
    let mut heap = Heap::new(rt.alloc());
    let one = number(&mut heap)?;
    let a = atom(&mut heap, b"a")?;
    let t = compound(&mut heap, b"f", one, a)?;
    let u = compound(&mut heap, b"f", a, one)?;
    assert!(rt; two(&mut heap, Binary::Order(Relation::Less), t, u)?);
    Ok(())
}

#[test]
fn a_copy_is_unified(rt: HostRuntime) -> Result<(), Fail> {
    let mut heap = Heap::new(rt.alloc());
    let x = variable(&mut heap)?;
    let t = compound(&mut heap, b"f", x, x)?;
    assert!(rt; two(&mut heap, Binary::CopyTerm, t, x)?);
    Ok(())
}

#[test]
fn a_list_becomes_a_term(rt: HostRuntime) -> Result<(), Fail> {
    let mut heap = Heap::new(rt.alloc());
    let t = variable(&mut heap)?;
    let end = atom(&mut heap, b"[]")?;
    let tail = compound(&mut heap, b".", end, end)?;
    let list = compound(&mut heap, b".", end, tail)?;
    assert!(rt; two(&mut heap, Binary::Univ, t, list)?);
    Ok(())
}

#[test]
fn a_name_and_an_arity_become_a_term(rt: HostRuntime) -> Result<(), Fail> {
    let mut heap = Heap::new(rt.alloc());
    let t = variable(&mut heap)?;
    let name = atom(&mut heap, b"f")?;
    let arity = number(&mut heap)?;
    assert!(rt; three(&mut heap, Ternary::Functor, t, name, arity)?);
    Ok(())
}

#[test]
fn an_argument_is_unified(rt: HostRuntime) -> Result<(), Fail> {
    let mut heap = Heap::new(rt.alloc());
    let x = variable(&mut heap)?;
    let place = number(&mut heap)?;
    let t = compound(&mut heap, b"f", x, place)?;
    assert!(rt; three(&mut heap, Ternary::Arg, place, t, x)?);
    Ok(())
}
