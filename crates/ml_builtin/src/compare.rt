//! The standard order of the terms of two cells. Pairs of cells wait on a worklist, the next one
//! last, so that no long list needs a deep recursion.
ghost use Rattle.std.specs.Prelude.{◌≡◌, ◌+◌, ◌<◌, ◌++◌, List, ℕ, IfOk, OnOk, length, map, reverse};
ghost use Rattle.std.specs.Ordering.{ordering_then};
ghost use Rattle.ml_term.specs.Order.{tree_cmp};
ghost use Rattle.ml_term.specs.Tree.{atom, compound, integer, nodes, trees_of};
ghost use Rattle.ml_heap.specs.Changes.{arguments_of, cell_count, IsVariable, KeepsMarks};
ghost use Rattle.ml_heap.specs.Changes.{stands_for, variable_count};
ghost use Rattle.ml_heap.specs.inside.Equations.{AreBelow};
ghost use Rattle.ml_search.specs.Builtins.{test_result};
ghost use Rattle.ml_builtin.specs.Outcomes.{Agrees};
ghost use Rattle.ml_builtin.specs.inside.Meanings.{relation_test};
ghost use Rattle.ml_builtin.specs.inside.Orders.{nodes_left, order_left};

use crate::outcome::{Outcome, outcome_of_test};
use crate::relation::Relation;
use ml_heap::{Heap, Look, Ref};
use ml_term::Name;
use std::alloc::AllocError;
use std::cmp::Ordering;

// Whether the terms of two cells are in a relation.
pub(crate) fn compare_terms(
    heap: &mut Heap,
    relation: Relation,
    t: Ref,
    u: Ref,
) -> Result<Outcome, AllocError>
    requires t_inside { t < cell_count heap.old }
    requires u_inside { u < cell_count heap.old }
    ensures done { IfOk result (λ outcome. Agrees heap.old heap.new
        (test_result (relation_test relation
        (tree_cmp (stands_for heap.old t) (stands_for heap.old u)))
        (variable_count heap.old)) outcome) }
    ensures marks { KeepsMarks heap.old heap.new }
{
    let order = order_of(heap, t, u)?;
    Ok(outcome_of_test(relation.holds(order)))
}

// The standard order of the terms of two cells.
fn order_of(heap: &Heap, a: Ref, b: Ref) -> Result<Ordering, AllocError>
    requires a_inside { a < cell_count heap.now }
    requires b_inside { b < cell_count heap.now }
    ensures { IfOk result (λ order. order
        ≡ tree_cmp (stands_for heap.now a) (stands_for heap.now b)) }
{
    let mut left = Vec::new(heap.allocator());
    left.push((a, b))?;
    while let Some((a, b)) = left.pop() {
        let order = order_of_heads(heap, a, b, &mut left)?;
        if order.is_ne() {
            return Ok(order);
        }
    }
    Ok(Ordering::Equal)
}

// The order of two terms' types, values or names. Where it is equal, the pairs of arguments are put
// last, the first after all others.
fn order_of_heads(
    heap: &Heap,
    a: Ref,
    b: Ref,
    left: &mut Vec<(Ref, Ref)>,
) -> Result<Ordering, AllocError>
    requires a_inside { a < cell_count heap.now }
    requires b_inside { b < cell_count heap.now }
    ensures order { IfOk result (λ order.
        ordering_then order (order_left heap.now left.new.items) ≡
        ordering_then (tree_cmp (stands_for heap.now a) (stands_for heap.now b))
        (order_left heap.now left.old.items)) }
    ensures inside { OnOk result (AreBelow (cell_count heap.now) left.old.items →
        AreBelow (cell_count heap.now) left.new.items) }
    ensures fewer { OnOk result (nodes_left heap.now left.new.items <
        nodes_left heap.now left.old.items + nodes (stands_for heap.now a)) }
{
    match heap.look(a) {
        Look::Var(_) => Ok(order_of_variable(heap, a, b)),
        Look::Int(x) => Ok(order_of_integer(heap, x, b)),
        Look::Atom(f) => Ok(order_of_atom(heap, f, b)),
        Look::Cmp(f, m) => Ok(order_of_compound(heap, a, f, m, b, left)?),
    }
}

// The order of a variable and another term.
fn order_of_variable(heap: &Heap, a: Ref, b: Ref) -> Ordering
    requires a_inside { a < cell_count heap.now }
    requires b_inside { b < cell_count heap.now }
    requires variable { IsVariable (stands_for heap.now a) }
    ensures { result ≡ tree_cmp (stands_for heap.now a) (stands_for heap.now b) }
{
    match heap.look(b) {
        Look::Var(_) => heap.number_at(a).cmp(&heap.number_at(b)),
        Look::Int(_) => Ordering::Less,
        Look::Atom(_) => Ordering::Less,
        Look::Cmp(_, _) => Ordering::Less,
    }
}

// The order of an integer and another term.
fn order_of_integer(heap: &Heap, x: i64, b: Ref) -> Ordering
    requires { b < cell_count heap.now }
    ensures { result ≡ tree_cmp (integer x) (stands_for heap.now b) }
{
    match heap.look(b) {
        Look::Var(_) => Ordering::Greater,
        Look::Int(y) => x.cmp(&y),
        Look::Atom(_) => Ordering::Less,
        Look::Cmp(_, _) => Ordering::Less,
    }
}

// The order of an atom and another term.
fn order_of_atom(heap: &Heap, f: &Name, b: Ref) -> Ordering
    requires { b < cell_count heap.now }
    ensures { result ≡ tree_cmp (atom f.now) (stands_for heap.now b) }
{
    match heap.look(b) {
        Look::Var(_) => Ordering::Greater,
        Look::Int(_) => Ordering::Greater,
        Look::Atom(g) => f.compare(g),
        Look::Cmp(_, _) => Ordering::Less,
    }
}

// The order of a compound and another term, or of two compounds' arities and names.
fn order_of_compound(
    heap: &Heap,
    a: Ref,
    f: &Name,
    m: u8,
    b: Ref,
    left: &mut Vec<(Ref, Ref)>,
) -> Result<Ordering, AllocError>
    requires a_inside { a < cell_count heap.now }
    requires b_inside { b < cell_count heap.now }
    requires compound { stands_for heap.now a
        ≡ compound f.now (trees_of (arguments_of (stands_for heap.now a))) }
    requires arity { length (arguments_of (stands_for heap.now a)) ≡ m }
    ensures order { IfOk result (λ order.
        ordering_then order (order_left heap.now left.new.items) ≡
        ordering_then (tree_cmp (stands_for heap.now a) (stands_for heap.now b))
        (order_left heap.now left.old.items)) }
    ensures inside { OnOk result (AreBelow (cell_count heap.now) left.old.items →
        AreBelow (cell_count heap.now) left.new.items) }
    ensures fewer { OnOk result (nodes_left heap.now left.new.items <
        nodes_left heap.now left.old.items + nodes (stands_for heap.now a)) }
{
    match heap.look(b) {
        Look::Var(_) => Ok(Ordering::Greater),
        Look::Int(_) => Ok(Ordering::Greater),
        Look::Atom(_) => Ok(Ordering::Greater),
        Look::Cmp(g, n) => {
            let order = m.cmp(&n).then(f.compare(g));
            if order.is_ne() {
                return Ok(order);
            }
            push_pairs(heap, a, b, m, left)?;
            Ok(order)
        }
    }
}

// Puts the pairs of two compounds' arguments last, the first after all others.
fn push_pairs(
    heap: &Heap,
    a: Ref,
    b: Ref,
    arity: u8,
    left: &mut Vec<(Ref, Ref)>,
) -> Result<(), AllocError>
    requires a_inside { a < cell_count heap.now }
    requires b_inside { b < cell_count heap.now }
    requires a_arity { arity ≡ length (arguments_of (stands_for heap.now a)) }
    requires b_arity { arity ≡ length (arguments_of (stands_for heap.now b)) }
    ensures { OnOk result ((ps : List (ℕ × ℕ)) ×
        ((left.new.items ≡ left.old.items ++ reverse ps)
        × AreBelow (cell_count heap.now) ps
        × (map (λ p. stands_for heap.now p.0) ps ≡ arguments_of (stands_for heap.now a))
        × (map (λ p. stands_for heap.now p.1) ps ≡ arguments_of (stands_for heap.now b)))) }
{
    let mut i = arity;
    while i > 0 {
        i -= 1;
        left.push((heap.arg(a, i), heap.arg(b, i)))?;
    }
    Ok(())
}
