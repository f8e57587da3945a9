use crate::{ArgumentFault, compile_called, goal_fault, list_fault};
use ml_heap::Heap;
use ml_term::Name;
use std::test::Fail;

#[test]
fn a_goals_arguments_are_variables(rt: HostRuntime) -> Result<(), Fail> {
    let name = Name::new(rt.alloc(), b"f")?;
    let mut heap = Heap::new(rt.alloc());
    let variable = heap.new_var()?;
    let goal = heap.new_cmp(&name, &[variable, variable])?;
    let mut slots = vec![in rt.alloc(); variable]?;
    let code = compile_called(&heap, goal, &mut slots)?;
    assert_eq!(rt; code.as_slice().len(), 4);
    assert_eq!(rt; slots.len(), 3);
    Ok(())
}

#[test]
fn a_conjunction_is_spelled_in_a_row(rt: HostRuntime) -> Result<(), Fail> {
    let comma = Name::new(rt.alloc(), b",")?;
    let mut heap = Heap::new(rt.alloc());
    let variable = heap.new_var()?;
    let both = heap.new_cmp(&comma, &[variable, variable])?;
    let mut slots = Vec::new(rt.alloc());
    let code = compile_called(&heap, both, &mut slots)?;
    assert_eq!(rt; code.as_slice().len(), 5);
    assert_eq!(rt; slots.len(), 2);
    Ok(())
}

#[test]
fn a_variable_is_no_goal(rt: HostRuntime) -> Result<(), Fail> {
    let mut heap = Heap::new(rt.alloc());
    let variable = heap.new_var()?;
    let fault = goal_fault(&heap, variable)?;
    assert!(rt; matches!(fault, Some(ArgumentFault::Unbound)));
    Ok(())
}

#[test]
fn a_conjunction_with_an_integer_is_not_callable(rt: HostRuntime) -> Result<(), Fail> {
    let comma = Name::new(rt.alloc(), b",")?;
    let mut heap = Heap::new(rt.alloc());
    let one = heap.new_int(1)?;
    let variable = heap.new_var()?;
    let both = heap.new_cmp(&comma, &[variable, one])?;
    let fault = goal_fault(&heap, both)?;
    assert!(rt; matches!(fault, Some(ArgumentFault::NotCallable)));
    Ok(())
}

#[test]
fn a_list_may_end_in_a_variable(rt: HostRuntime) -> Result<(), Fail> {
    let dot = Name::new(rt.alloc(), b".")?;
    let mut heap = Heap::new(rt.alloc());
    let variable = heap.new_var()?;
    let cell = heap.new_cmp(&dot, &[variable, variable])?;
    let wrong = heap.new_cmp(&dot, &[variable, variable, variable])?;
    assert!(rt; list_fault(&heap, cell).is_none());
    assert!(rt; list_fault(&heap, wrong).is_some());
    Ok(())
}
