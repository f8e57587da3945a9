//! The order in which a file's items are given.
ghost use Rattle.std.specs.Prelude.{◌≡◌};
ghost use Rattle.ml_file.specs.PlainList.{back_cmp, clause_cmp, front_cmp, id_cmp, item_cmp};

use ml_region::{Id, Item};
use ml_term::Kind;
use std::cmp::Ordering;

// Ids by place, and then by number of change.
fn id_order(a: Id, b: Id) -> Ordering
    ensures { result ≡ id_cmp a b }
{
    match a.place.cmp(&b.place) {
        Ordering::Equal => a.change.cmp(&b.change),
        other => other,
    }
}

// Ids first, and then storage numbers.
fn back_order(a: &Item, b: &Item) -> Ordering
    ensures { result ≡ back_cmp a.now b.now }
{
    match id_order(a.id, b.id) {
        Ordering::Equal => a.number.cmp(&b.number),
        other => other,
    }
}

// Later ids first, and then storage numbers.
fn front_order(a: &Item, b: &Item) -> Ordering
    ensures { result ≡ front_cmp a.now b.now }
{
    match id_order(b.id, a.id) {
        Ordering::Equal => a.number.cmp(&b.number),
        other => other,
    }
}

// The order of two clauses: those that were put first come before all others, the latest of them
// first.
fn clause_order(a: &Item, b: &Item) -> Ordering
    ensures { result ≡ clause_cmp a.now b.now }
{
    match (a.front, b.front) {
        (true, true) => front_order(a, b),
        (true, false) => Ordering::Less,
        (false, true) => Ordering::Greater,
        (false, false) => back_order(a, b),
    }
}

// The order of two items: that of keys for a relation, and that of clauses for clauses.
pub(crate) fn item_order(kind: Kind, a: &Item, b: &Item) -> Ordering
    ensures { result ≡ item_cmp kind a.now b.now }
{
    match kind {
        Kind::Relation => a.key.cmp(&b.key),
        Kind::Clauses => clause_order(a, b),
    }
}
