//! Compounds of two arguments, by their cells.
ghost use Rattle.std.specs.Prelude.{codes, ◌≡◌, ◌<◌, false, true, IfSome, MatchOption};
ghost use Rattle.std.specs.Str.{bytes_eq};
ghost use Rattle.ml_heap.specs.Changes.{cell_count, stands_for};
ghost use Rattle.ml_search.specs.Bodies.{joins_bodies};
ghost use Rattle.ml_search.specs.ListTerms.{list_end};
ghost use Rattle.ml_term.specs.Tree.{compound_2, nodes};
ghost use Rattle.ml_called.specs.inside.Pairs.{is_joined, is_pair};

use ml_heap::{Heap, Look, Ref};
use ml_term::Name;

/// A compound of two arguments: its name, and the arguments' cells.
#[derive(Clone, Copy)]
pub(crate) struct Pair<'a> {
    pub name: &'a Name,
    pub first: Ref,
    pub second: Ref,
}

// The compound of two that a cell stands for. It takes no memory.
fn pair_at(heap: &Heap, at: Ref) -> Option<Pair<'_>>
    requires { at < cell_count heap.now }
    ensures pair { MatchOption result (is_pair (stands_for heap.now at) ≡ false) (λ p.
        stands_for heap.now at
        ≡ compound_2 p.name.now (stands_for heap.now p.first) (stands_for heap.now p.second)) }
    ensures inside { IfSome result (λ p.
        (p.first < cell_count heap.now) × (p.second < cell_count heap.now)) }
{
    match heap.look(at) {
        Look::Cmp(name, 2) => Some(Pair {
            name,
            first: heap.arg(at, 0),
            second: heap.arg(at, 1),
        }),
        _ => None,
    }
}

/// The `,`, `;` or `->` of two that a cell stands for. It takes no memory.
pub(crate) fn joined_at(heap: &Heap, at: Ref) -> Option<Pair<'_>>
    requires { at < cell_count heap.now }
    ensures joined { MatchOption result (is_joined (stands_for heap.now at) ≡ false) (λ p.
        (joins_bodies p.name.now ≡ true) × (stands_for heap.now at
        ≡ compound_2 p.name.now (stands_for heap.now p.first) (stands_for heap.now p.second))) }
    ensures inside { IfSome result (λ p.
        (p.first < cell_count heap.now) × (p.second < cell_count heap.now)) }
{
    match pair_at(heap, at) {
        Some(pair) if joins_bodies(pair.name) => Some(pair),
        _ => None,
    }
}

/// What stands behind the head of a list's cell. It takes no memory.
pub(crate) fn tail_at(heap: &Heap, at: Ref) -> Option<Ref>
    requires { at < cell_count heap.now }
    ensures end { MatchOption result (list_end (stands_for heap.now at) ≡ stands_for heap.now at)
        (λ r. list_end (stands_for heap.now r) ≡ list_end (stands_for heap.now at)) }
    ensures inside { IfSome result (λ r. r < cell_count heap.now) }
    ensures smaller { IfSome result (λ r.
        nodes (stands_for heap.now r) < nodes (stands_for heap.now at)) }
{
    match pair_at(heap, at) {
        Some(pair) if is_list_cell(pair.name) => Some(pair.second),
        _ => None,
    }
}

// Whether two bodies are joined by this name.
fn joins_bodies(name: &Name) -> bool
    ensures { result ≡ joins_bodies name.now }
{
    let bytes = name.as_slice();
    bytes == b",".as_slice() || bytes == b";".as_slice() || bytes == b"->".as_slice()
}

// Whether this is the name of a list's cells.
fn is_list_cell(name: &Name) -> bool
    ensures { result ≡ bytes_eq name.now (codes ".") }
{
    name.as_slice() == b".".as_slice()
}

/// Whether this is the name of the empty list.
pub(crate) fn is_nil(name: &Name) -> bool
    ensures { result ≡ bytes_eq name.now (codes "[]") }
{
    name.as_slice() == b"[]".as_slice()
}
