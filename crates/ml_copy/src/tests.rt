use crate::copy_from;
use ml_heap::{Heap, Look};
use ml_term::Name;
use std::test::Fail;

#[test]
fn a_copy_has_variables_of_its_own(rt: HostRuntime) -> Result<(), Fail> {
    let name = Name::new(rt.alloc(), b"f")?;
    let mut from = Heap::new(rt.alloc());
    let _other = from.new_var()?;
    let variable = from.new_var()?;
    let term = from.new_cmp(&name, &[variable, variable])?;
    let mut to = Heap::new(rt.alloc());
    to.leave_out(7)?;
    let copy = copy_from(&mut to, &from, term)?;
    assert_eq!(rt; to.count(), 8);
    assert!(rt; matches!(to.look(copy), Look::Cmp(_, 2)));
    assert!(rt; matches!(to.look(to.arg(copy, 1)), Look::Var(_)));
    Ok(())
}
