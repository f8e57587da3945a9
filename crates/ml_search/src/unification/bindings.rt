//! Bindings of variables that are not replaced in one another.
ghost use Rattle.std.specs.Prelude.{◌≡◌, ◌<◌, ◌+◌, ◌^◌, ◌&&◌, nat_lt, ℕ, IsTrue, MatchOption, IfSome, None, Some, length, slice_get};
ghost use Rattle.ml_search.specs.MapSeen.{bound_term};
ghost use Rattle.ml_search.specs.inside.Triangular.{IsFree, IsTriangular, map_of};
ghost use Rattle.ml_search.specs.inside.Unifying.{are_sound_bindings, bindings_of, is_sound};
ghost use Rattle.ml_search.specs.inside.Unifying.{tree_of};
ghost use Rattle.ml_term.specs.Unify.{apply};

use crate::unification::pair::{Binding, Shifted};
use indexmap::IndexMap;
use ml_term::Term;

// The greatest base of variables.
pub(crate) const MAX_VARIABLE_BASE: u64 = 4294967296;

// Variables with the terms that they are bound to, the latest bound last, found by their numbers.
pub(crate) type Bindings<'a> = IndexMap<u64, Shifted<'a>>;

// What a variable is bound to.
pub(crate) fn bound_to<'a>(bindings: &Bindings<'a>, variable: u64) -> Option<Shifted<'a>>
    ensures found { MatchOption result
        (bound_term (bindings_of bindings.now.entries) variable ≡ None)
        (λ to. bound_term (bindings_of bindings.now.entries) variable ≡ Some (tree_of to)) }
    ensures sound { (most : ℕ) → IsTrue (are_sound_bindings most bindings.now.entries) →
        IfSome result (λ to. IsTrue (is_sound most to)) }
{
    bindings.get(&variable).copied()
}

// The binding at a place, from 0.
pub(crate) fn binding_at<'a>(bindings: &Bindings<'a>, i: usize) -> Binding<'a>
    requires { i < length bindings.now.entries }
    ensures is { slice_get bindings.now.entries i ≡ Some (result.variable, result.to) }
    ensures sound { (most : ℕ) → IsTrue (are_sound_bindings most bindings.now.entries) →
        IsTrue (nat_lt result.variable (most + 2 ^ 32) && is_sound most result.to) }
{
    match bindings.get_index(i) {
        Some((variable, to)) => Binding {
            variable: *variable,
            to: *to,
        },
        None => unreachable!(),
    }
}

// Where the chain of variables that are bound to one another ends, from a term on.
pub(crate) fn end_of<'a>(bindings: &Bindings<'a>, at: Shifted<'a>) -> Shifted<'a>
    requires triangular { IsTriangular (bindings_of bindings.now.entries) }
    requires sound { IsTrue (are_sound_bindings MAX_VARIABLE_BASE bindings.now.entries) }
    requires at { IsTrue (is_sound MAX_VARIABLE_BASE at) }
    ensures same { apply (map_of (bindings_of bindings.now.entries)) (tree_of result)
        ≡ apply (map_of (bindings_of bindings.now.entries)) (tree_of at.entry) }
    ensures free { IsFree (bindings_of bindings.now.entries) (tree_of result) }
    ensures sound { (most : ℕ) → IsTrue (are_sound_bindings most bindings.now.entries) →
        IsTrue (is_sound most at.entry) → IsTrue (is_sound most result) }
{
    let mut end = at;
    while let Term::Var(n) = end.term {
        match bound_to(bindings, end.base + u64::from(*n)) {
            Some(to) => end = to,
            None => return end,
        }
    }
    end
}
