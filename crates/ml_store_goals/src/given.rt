//! The clause that is given to `asserta/1`, `assertz/1` and `retract/1`.
ghost use Rattle.std.specs.Prelude.{codes, ◌≡◌, ◌<◌, false, IfOk, IfSome, MatchOption, OnOk};
ghost use Rattle.std.specs.Str.{bytes_eq};
ghost use Rattle.ml_heap.specs.Changes.{cell_count, Grows, stands_for, variable_count};
ghost use Rattle.ml_search.specs.Procedures.{given_body, given_head};
ghost use Rattle.ml_search.specs.Program.{clause_term};
ghost use Rattle.ml_store_goals.specs.inside.Given.{is_pair, is_rule};
ghost use Rattle.ml_term.specs.Tree.{compound_2};

use ml_heap::{Heap, Look, Ref};
use ml_term::Name;
use std::alloc::AllocError;

/// The cells of a clause's head and of its body.
#[derive(Clone, Copy)]
pub(crate) struct Given {
    pub head: Ref,
    pub body: Ref,
}

/// The head and the body of the clause that is given by a cell: those of `:-(Head, Body)`, else the
/// cell itself and a new one that stands for `true`.
pub(crate) fn given_at(heap: &mut Heap, at: Ref) -> Result<Given, AllocError>
    requires { at < cell_count heap.old }
    ensures head { IfOk result (λ g. stands_for heap.new g.head
        ≡ given_head (stands_for heap.old at)) }
    ensures body { IfOk result (λ g. stands_for heap.new g.body
        ≡ given_body (stands_for heap.old at)) }
    ensures inside { IfOk result (λ g.
        (g.head < cell_count heap.new) × (g.body < cell_count heap.new)) }
    ensures grown { OnOk result (Grows heap.old heap.new) }
    ensures counted { OnOk result (variable_count heap.new ≡ variable_count heap.old) }
{
    if let Some(given) = rule_at(heap, at) {
        return Ok(given);
    }
    let name = Name::new(heap.allocator(), b"true")?;
    let body = heap.new_atom(&name)?;
    Ok(Given { head: at, body })
}

// The head and the body of the `:-(Head, Body)` that a cell stands for. It takes no memory.
fn rule_at(heap: &Heap, at: Ref) -> Option<Given>
    requires { at < cell_count heap.now }
    ensures rule { MatchOption result (is_rule (stands_for heap.now at) ≡ false) (λ g.
        stands_for heap.now at
        ≡ clause_term (stands_for heap.now g.head) (stands_for heap.now g.body)) }
    ensures inside { IfSome result (λ g.
        (g.head < cell_count heap.now) × (g.body < cell_count heap.now)) }
{
    match pair_at(heap, at) {
        Some(pair) if is_neck(pair.name) => Some(pair.given),
        _ => None,
    }
}

// A compound of two arguments: its name, and the arguments' cells.
#[derive(Clone, Copy)]
struct Pair<'a> {
    name: &'a Name,
    given: Given,
}

// The compound of two that a cell stands for. It takes no memory.
fn pair_at(heap: &Heap, at: Ref) -> Option<Pair<'_>>
    requires { at < cell_count heap.now }
    ensures pair { MatchOption result (is_pair (stands_for heap.now at) ≡ false) (λ p.
        stands_for heap.now at ≡ compound_2 p.name.now (stands_for heap.now p.given.head)
        (stands_for heap.now p.given.body)) }
    ensures inside { IfSome result (λ p.
        (p.given.head < cell_count heap.now) × (p.given.body < cell_count heap.now)) }
{
    match heap.look(at) {
        Look::Cmp(name, 2) => Some(Pair {
            name,
            given: Given {
                head: heap.arg(at, 0),
                body: heap.arg(at, 1),
            },
        }),
        _ => None,
    }
}

// Whether this is the name of a clause.
fn is_neck(name: &Name) -> bool
    ensures { result ≡ bytes_eq name.now (codes ":-") }
{
    name.as_slice() == b":-".as_slice()
}
