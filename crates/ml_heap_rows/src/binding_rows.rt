//! Variables bound, and a heap taken back to a mark.
use ml_heap::{Heap, Look};
use ml_term::Name;
use std::test::Fail;

#[test]
fn an_undone_heap_shows_what_it_showed(rt: HostRuntime) -> Result<(), Fail> {
    let mut heap = Heap::new(rt.alloc());
    let var = heap.new_var()?;
    let mark = heap.mark();
    let seven = heap.new_int(7)?;
    assert!(rt; matches!(heap.look(seven), Look::Int(7)));
    heap.undo_to(mark);
    assert!(rt; matches!(heap.look(var), Look::Var(_)));
    assert!(rt; !heap.is_older(var, var));
    let younger = heap.new_var()?;
    assert!(rt; heap.is_older(var, younger));
    assert!(rt; !heap.is_older(younger, var));
    Ok(())
}

#[test]
fn a_bound_variable_shows_what_it_is_bound_to(rt: HostRuntime) -> Result<(), Fail> {
    let mut heap = Heap::new(rt.alloc());
    let name = Name::new(rt.alloc(), b"a")?;
    let atom = heap.new_atom(&name)?;
    let pair = heap.new_cmp(&name, &[atom, atom])?;
    let var = heap.new_var()?;
    heap.bind(var, pair)?;
    assert!(rt; matches!(heap.look(var), Look::Cmp(_, 2)));
    assert!(rt; matches!(heap.look(heap.arg(var, 1)), Look::Atom(_)));
    Ok(())
}
