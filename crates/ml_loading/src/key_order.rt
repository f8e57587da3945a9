//! Tuples in the order of their keys.
ghost use Rattle.std.specs.Prelude.{◌≡◌};
ghost use Rattle.std.specs.List.{All};
ghost use Rattle.ml_term.specs.Seen.{seen};
ghost use Rattle.ml_search.specs.Loading.{in_key_order};
ghost use Rattle.ml_loading.specs.KeyOrder.{place_cmp, size};
ghost use Rattle.ml_loading.specs.Lists.{trees};

use crate::valid_term::ValidTerm;
use ml_term::{Decl, key_cmp};
use std::cmp::Ordering;

/// The tuples of a declared relation in the order of their keys, each once. It takes no memory.
pub(crate) fn in_key_order(decl: &Decl, tuples: Vec<ValidTerm>) -> Vec<ValidTerm>
    requires { All (λ t. size t ≡ decl.now.pred.arity) (trees tuples.items) }
    ensures { trees result.items ≡ in_key_order decl.now.keys (trees tuples.items) }
{
    let mut sorted = tuples;
    sorted.sort_unstable_by(|a, b| order(decl, a, b));
    sorted.dedup_by(|a, b| order(decl, a, b) == Ordering::Equal);
    sorted
}

// The order of two tuples with the declared number of arguments is that of their keys.
#[tactic(auto, unfolding(crate::specs::KeyOrder::place_cmp))]
fn order(decl: &Decl, a: &ValidTerm, b: &ValidTerm) -> Ordering
    ensures { result
        ≡ place_cmp decl.now.keys decl.now.pred.arity (seen a.now.term) (seen b.now.term) }
{
    let wanted = usize::from(decl.pred.arity);
    if a.term.arity() == wanted && b.term.arity() == wanted {
        return key_cmp(decl, &a.term, &b.term);
    }
    a.term.arity().cmp(&b.term.arity())
}
