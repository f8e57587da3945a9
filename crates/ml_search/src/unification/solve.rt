//! Unification of two terms by a stack of pairs, and bindings that are not replaced in one another.
ghost use Rattle.std.specs.Prelude.{◌≡◌, ◌<◌, ◌&&◌, slice_get, ◌∷◌, ◌++◌, ℕ, IsTrue, IfOk, IfSome};
ghost use Rattle.std.specs.Prelude.{OnOk, MatchOption, Some, None, length};
ghost use Rattle.std.specs.Bool.{if◌then◌else◌};
ghost use Rattle.std.specs.List.{zip};
ghost use Rattle.std.proofs.Common.{inl, inr};
ghost use Rattle.ml_search.specs.inside.Triangular.{IsTriangular, map_of};
ghost use Rattle.ml_search.specs.inside.Unifying.{are_sound_arguments, are_sound_bindings};
ghost use Rattle.ml_search.specs.inside.Unifying.{are_sound_pairs, bindings_of, equation_of};
ghost use Rattle.ml_search.specs.inside.Unifying.{equations_of, is_sound, state_of, tree_of};
ghost use Rattle.ml_search.specs.inside.Unifying.{trees_from};
ghost use Rattle.ml_term.specs.Runs.{now};
ghost use Rattle.ml_term.specs.Unify.{turn, unifier};

use crate::unification::bindings::{Bindings, MAX_VARIABLE_BASE, end_of};
use crate::unification::equation::rule;
use crate::unification::pair::{Arguments, Pair, Rule, Shifted};
use indexmap::IndexMap;
use std::alloc::{AllocError, Global};

// The pair of the arguments at a place of two terms.
fn pair_of<'a>(ts: Arguments<'a>, us: Arguments<'a>, i: usize) -> Pair<'a>
    requires left { i < length ts.terms.now }
    requires right { i < length us.terms.now }
    ensures left { slice_get (trees_from ts.entry.base ts.entry.terms.now) i
        ≡ Some (tree_of result.left) }
    ensures right { slice_get (trees_from us.entry.base us.entry.terms.now) i
        ≡ Some (tree_of result.right) }
    ensures sound { (most : ℕ) → IsTrue (are_sound_arguments most ts.entry) →
        IsTrue (are_sound_arguments most us.entry) →
        IsTrue (is_sound most result.left && is_sound most result.right) }
{
    Pair {
        left: Shifted {
            term: &ts.terms[i],
            base: ts.base,
        },
        right: Shifted {
            term: &us.terms[i],
            base: us.base,
        },
    }
}

// Puts the pairs of two terms' arguments on the stack, those of the first arguments last.
fn push_arguments<'a>(
    pairs: &mut Vec<Pair<'a>>,
    ts: Arguments<'a>,
    us: Arguments<'a>,
) -> Result<(), AllocError>
    requires as_many { length us.terms.now ≡ length ts.terms.now }
    ensures first { OnOk result (equations_of pairs.new.items ≡
        zip (trees_from ts.entry.base ts.entry.terms.now)
        (trees_from us.entry.base us.entry.terms.now) ++ equations_of pairs.old.items) }
    ensures sound { (most : ℕ) → IsTrue (are_sound_arguments most ts.entry) →
        IsTrue (are_sound_arguments most us.entry) →
        IsTrue (are_sound_pairs most pairs.old.items) →
        OnOk result (IsTrue (are_sound_pairs most pairs.new.items)) }
{
    let count = ts.terms.len();
    for k in 0..count {
        let i = count - 1 - k;
        let pair = pair_of(ts, us, i);
        pairs.push(pair)?;
    }
    Ok(())
}

// One turn: what is done with the pair that was taken from the stack. False where its terms can't
// be made equal.
fn turn<'a>(
    alloc: Global,
    bindings: &mut Bindings<'a>,
    pairs: &mut Vec<Pair<'a>>,
    pair: Pair<'a>,
) -> Result<bool, AllocError>
    requires triangular { IsTriangular (bindings_of bindings.old.entries) }
    requires bindings { IsTrue (are_sound_bindings MAX_VARIABLE_BASE bindings.old.entries) }
    requires left { IsTrue (is_sound MAX_VARIABLE_BASE pair.left) }
    requires right { IsTrue (is_sound MAX_VARIABLE_BASE pair.right) }
    ensures turned { IfOk result
        (λ goes_on. turn
        (state_of bindings.old.entries (equation_of pair.entry ∷ equations_of pairs.old.items)) ≡
        (if goes_on then now (inr (state_of bindings.new.entries (equations_of pairs.new.items)))
        else now (inl None))) }
    ensures triangular { OnOk result (IsTriangular (bindings_of bindings.new.entries)) }
    ensures bindings { (most : ℕ) → IsTrue (is_sound most pair.entry.left) →
        IsTrue (is_sound most pair.entry.right) →
        IsTrue (are_sound_bindings most bindings.old.entries) →
        OnOk result (IsTrue (are_sound_bindings most bindings.new.entries)) }
    ensures pairs { (most : ℕ) → IsTrue (is_sound most pair.entry.left) →
        IsTrue (is_sound most pair.entry.right) →
        IsTrue (are_sound_bindings most bindings.old.entries) →
        IsTrue (are_sound_pairs most pairs.old.items) →
        OnOk result (IsTrue (are_sound_pairs most pairs.new.items)) }
{
    let left = end_of(bindings, pair.left);
    let right = end_of(bindings, pair.right);
    match rule(alloc, bindings, left, right)? {
        Rule::Dropped => Ok(true),
        Rule::Bound(binding) => {
            bindings.insert(binding.variable, binding.to)?;
            Ok(true)
        }
        Rule::Split(ts, us) => {
            push_arguments(pairs, ts, us)?;
            Ok(true)
        }
        Rule::Clash => Ok(false),
    }
}

// The bindings that make two terms equal, if there are any.
pub(crate) fn solve<'a>(
    alloc: Global,
    left: Shifted<'a>,
    right: Shifted<'a>,
) -> Result<Option<Bindings<'a>>, AllocError>
    requires left { IsTrue (is_sound MAX_VARIABLE_BASE left) }
    requires right { IsTrue (is_sound MAX_VARIABLE_BASE right) }
    ensures solved { IfOk result
        (λ solved. MatchOption solved (unifier (tree_of left.entry) (tree_of right.entry) ≡ None)
        (λ bindings. unifier (tree_of left.entry) (tree_of right.entry)
        ≡ Some (map_of (bindings_of bindings.entries)))) }
    ensures triangular { IfOk result
        (λ solved. IfSome solved (λ bindings. IsTriangular (bindings_of bindings.entries))) }
    ensures sound { (most : ℕ) → IsTrue (is_sound most left.entry) →
        IsTrue (is_sound most right.entry) →
        IfOk result
        (λ solved. IfSome solved (λ bindings. IsTrue (are_sound_bindings most bindings.entries))) }
{
    let mut bindings = IndexMap::new(alloc);
    let mut pairs = Vec::new(alloc);
    pairs.push(Pair { left, right })?;
    while let Some(pair) = pairs.pop() {
        if !turn(alloc, &mut bindings, &mut pairs, pair)? {
            return Ok(None);
        }
    }
    Ok(Some(bindings))
}
