//! The order of the tuples of a relation by their keys.
ghost use Rattle.std.specs.Prelude.{◌≡◌, ◌≤◌, ◌&&◌, IsTrue, length, nat_le};
ghost use Rattle.std.specs.List.{list_all};
ghost use Rattle.std.specs.Cmp.Lexicographic.{slice_cmp};
ghost use Rattle.std.specs.Ordering.{bool_cmp};
ghost use Rattle.ml_term.specs.inside.KeyHeads.{key_head_of};
ghost use Rattle.ml_term.specs.Keys.{argument, arguments, tuple_cmp};
ghost use Rattle.ml_term.specs.Seen.{all_seen, seen};
ghost use Rattle.ml_term.specs.Tree.{arity, trees_of};
ghost use Rattle.ml_term.specs.Valid.{are_valid, is_valid};

use crate::canonical::canonical_cmp;
use crate::code::code_word;
use crate::declaration::Decl;
use crate::term::Term;
use std::cmp::Ordering;

/// The arguments of a compound, and none of other terms. It takes no memory.
pub fn arguments_of(t: &Term) -> &[Term]
    requires { IsTrue (is_valid (seen t.now)) }
    ensures same { trees_of (all_seen result.now) ≡ arguments (seen t.now) }
    ensures valid { IsTrue (are_valid (trees_of (all_seen result.now))) }
{
    match t {
        Term::Cmp(_, ts) => ts.as_slice(),
        _ => &[],
    }
}

/// The argument with a number from 1. It takes no memory.
pub fn argument_at(ts: &[Term], k: u8) -> &Term
    requires low { 1 ≤ k }
    requires high { k ≤ length ts.now }
    requires valid { IsTrue (are_valid (trees_of (all_seen ts.now))) }
    ensures same { seen result.now ≡ argument k (trees_of (all_seen ts.now)) }
    ensures valid { IsTrue (is_valid (seen result.now)) }
{
    &ts[usize::from(k) - 1]
}

// The order of the codes of keyed arguments, whose bits stand in turn: the first bit that differs
// decides, and of several arguments that differ first at one bit the first argument. It takes no
// memory.
fn head_cmp(keys: &[u8], ts: &[Term], us: &[Term]) -> Ordering
    requires keys { IsTrue (list_all (λ k. nat_le 1 k && nat_le k (length ts.now)) keys.now) }
    requires as_many { length us.now ≡ length ts.now }
    requires ts { IsTrue (are_valid (trees_of (all_seen ts.now))) }
    requires us { IsTrue (are_valid (trees_of (all_seen us.now))) }
    ensures { result ≡ slice_cmp bool_cmp (key_head_of keys.now (trees_of (all_seen ts.now)))
        (key_head_of keys.now (trees_of (all_seen us.now))) }
{
    let mut same = u64::BITS;
    let mut order = Ordering::Equal;
    for key in keys {
        let x = code_word(argument_at(ts, *key));
        let y = code_word(argument_at(us, *key));
        let zeros = (x ^ y).leading_zeros();
        if zeros < same {
            same = zeros;
            order = x.cmp(&y);
        }
    }
    order
}

/// The order of the keys of two tuples of a declared relation: first the codes of the keyed
/// arguments, bit by bit in turn, and then the canonical bytes. It takes no memory.
pub fn key_cmp(decl: &Decl, a: &Term, b: &Term) -> Ordering
    requires arity_a { arity (arguments (seen a.now)) ≡ decl.now.pred.arity }
    requires arity_b { arity (arguments (seen b.now)) ≡ decl.now.pred.arity }
    requires valid_a { IsTrue (is_valid (seen a.now)) }
    requires valid_b { IsTrue (is_valid (seen b.now)) }
    ensures { result ≡ tuple_cmp decl.now.keys (seen a.now) (seen b.now) }
{
    match head_cmp(decl.keys.as_slice(), arguments_of(a), arguments_of(b)) {
        Ordering::Equal => canonical_cmp(a, b),
        other => other,
    }
}
