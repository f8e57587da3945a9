//! What is done with two terms where no chain of bound variables goes on.
ghost use Rattle.std.specs.Prelude.{◌≡◌, ◌+◌, ◌^◌, ◌<◌, ℕ, IsTrue, IfOk, None};
ghost use Rattle.ml_search.specs.MapSeen.{bound_term};
ghost use Rattle.ml_search.specs.inside.Triangular.{IsFree, IsTriangular};
ghost use Rattle.ml_search.specs.inside.Unifying.{Binds, Decides, IsPlain, are_sound_bindings};
ghost use Rattle.ml_search.specs.inside.Unifying.{arguments_from, bindings_of, is_sound};
ghost use Rattle.ml_search.specs.inside.Unifying.{is_sound_rule, tree_of};
ghost use Rattle.ml_term.specs.Seen.{all_seen};
ghost use Rattle.ml_term.specs.Valid.{are_valid};
ghost use Rattle.ml_term.specs.Tree.{atom, compound, integer, trees_of, variable};

use crate::unification::bindings::{Bindings, MAX_VARIABLE_BASE};
use crate::unification::occurs::occurs;
use crate::unification::pair::{Arguments, Binding, Rule, Shifted};
use ml_term::{Name, Term};
use std::alloc::{AllocError, Global};

// A variable against a term that is no variable.
fn bind<'a>(
    alloc: Global,
    bindings: &Bindings<'a>,
    variable: u64,
    to: Shifted<'a>,
) -> Result<Rule<'a>, AllocError>
    requires triangular { IsTriangular (bindings_of bindings.now.entries) }
    requires sound { IsTrue (are_sound_bindings MAX_VARIABLE_BASE bindings.now.entries) }
    requires to { IsTrue (is_sound MAX_VARIABLE_BASE to) }
    requires plain { IsPlain (tree_of to) }
    requires free { bound_term (bindings_of bindings.now.entries) variable ≡ None }
    ensures binds { IfOk result
        (λ rule. Binds (bindings_of bindings.now.entries) rule variable (tree_of to.entry)) }
    ensures sound { (most : ℕ) → variable < most + 2 ^ 32 → IsTrue (is_sound most to.entry) →
        IfOk result (λ rule. IsTrue (is_sound_rule most rule)) }
{
    if occurs(alloc, bindings, variable, to)? {
        Ok(Rule::Clash)
    } else {
        Ok(Rule::Bound(Binding { variable, to }))
    }
}

// A variable against any term. Of two variables the younger is bound to the older.
fn from_variable<'a>(
    alloc: Global,
    bindings: &Bindings<'a>,
    left: Shifted<'a>,
    m: u64,
    right: Shifted<'a>,
) -> Result<Rule<'a>, AllocError>
    requires triangular { IsTriangular (bindings_of bindings.now.entries) }
    requires sound { IsTrue (are_sound_bindings MAX_VARIABLE_BASE bindings.now.entries) }
    requires left { IsTrue (is_sound MAX_VARIABLE_BASE left) }
    requires right { IsTrue (is_sound MAX_VARIABLE_BASE right) }
    requires is { tree_of left ≡ variable m }
    requires right_free { IsFree (bindings_of bindings.now.entries) (tree_of right) }
    requires low { m < left.base + 2 ^ 32 }
    requires left_free { IsFree (bindings_of bindings.now.entries) (tree_of left) }
    ensures decided { IfOk result (λ rule. Decides (bindings_of bindings.now.entries) rule
        (tree_of left.entry) (tree_of right.entry)) }
    ensures sound { (most : ℕ) → IsTrue (is_sound most left.entry) →
        IsTrue (is_sound most right.entry) → IfOk result
        (λ rule. IsTrue (is_sound_rule most rule)) }
{
    match right.term {
        Term::Var(n) => {
            let n = right.base + u64::from(*n);
            if m == n {
                Ok(Rule::Dropped)
            } else if m < n {
                Ok(Rule::Bound(Binding {
                    variable: n,
                    to: left,
                }))
            } else {
                Ok(Rule::Bound(Binding {
                    variable: m,
                    to: right,
                }))
            }
        }
        Term::Int(_) => bind(alloc, bindings, m, right),
        Term::Atom(_) => bind(alloc, bindings, m, right),
        Term::Cmp(_, _) => bind(alloc, bindings, m, right),
    }
}

// An integer against any term.
fn from_integer<'a>(
    alloc: Global,
    bindings: &Bindings<'a>,
    left: Shifted<'a>,
    y: i64,
    right: Shifted<'a>,
) -> Result<Rule<'a>, AllocError>
    requires triangular { IsTriangular (bindings_of bindings.now.entries) }
    requires sound { IsTrue (are_sound_bindings MAX_VARIABLE_BASE bindings.now.entries) }
    requires left { IsTrue (is_sound MAX_VARIABLE_BASE left) }
    requires right { IsTrue (is_sound MAX_VARIABLE_BASE right) }
    requires is { tree_of left ≡ integer y }
    requires right_free { IsFree (bindings_of bindings.now.entries) (tree_of right) }
    ensures decided { IfOk result (λ rule. Decides (bindings_of bindings.now.entries) rule
        (tree_of left.entry) (tree_of right.entry)) }
    ensures sound { (most : ℕ) → IsTrue (is_sound most left.entry) →
        IsTrue (is_sound most right.entry) → IfOk result
        (λ rule. IsTrue (is_sound_rule most rule)) }
{
    match right.term {
        Term::Var(n) => bind(alloc, bindings, right.base + u64::from(*n), left),
        Term::Int(z) => {
            if y == *z {
                Ok(Rule::Dropped)
            } else {
                Ok(Rule::Clash)
            }
        }
        Term::Atom(_) => Ok(Rule::Clash),
        Term::Cmp(_, _) => Ok(Rule::Clash),
    }
}

// An atom against any term.
fn from_atom<'a>(
    alloc: Global,
    bindings: &Bindings<'a>,
    left: Shifted<'a>,
    f: &'a Name,
    right: Shifted<'a>,
) -> Result<Rule<'a>, AllocError>
    requires triangular { IsTriangular (bindings_of bindings.now.entries) }
    requires sound { IsTrue (are_sound_bindings MAX_VARIABLE_BASE bindings.now.entries) }
    requires left { IsTrue (is_sound MAX_VARIABLE_BASE left) }
    requires right { IsTrue (is_sound MAX_VARIABLE_BASE right) }
    requires is { tree_of left ≡ atom f.now }
    requires right_free { IsFree (bindings_of bindings.now.entries) (tree_of right) }
    ensures decided { IfOk result (λ rule. Decides (bindings_of bindings.now.entries) rule
        (tree_of left.entry) (tree_of right.entry)) }
    ensures sound { (most : ℕ) → IsTrue (is_sound most left.entry) →
        IsTrue (is_sound most right.entry) → IfOk result
        (λ rule. IsTrue (is_sound_rule most rule)) }
{
    match right.term {
        Term::Var(n) => bind(alloc, bindings, right.base + u64::from(*n), left),
        Term::Int(_) => Ok(Rule::Clash),
        Term::Atom(g) => {
            if f.is(g) {
                Ok(Rule::Dropped)
            } else {
                Ok(Rule::Clash)
            }
        }
        Term::Cmp(_, _) => Ok(Rule::Clash),
    }
}

// A compound against any term.
fn from_compound<'a>(
    alloc: Global,
    bindings: &Bindings<'a>,
    left: Shifted<'a>,
    f: &'a Name,
    ts: &'a [Term],
    right: Shifted<'a>,
) -> Result<Rule<'a>, AllocError>
    requires triangular { IsTriangular (bindings_of bindings.now.entries) }
    requires sound { IsTrue (are_sound_bindings MAX_VARIABLE_BASE bindings.now.entries) }
    requires left { IsTrue (is_sound MAX_VARIABLE_BASE left) }
    requires right { IsTrue (is_sound MAX_VARIABLE_BASE right) }
    requires is { tree_of left ≡ compound f.now (arguments_from left.base ts.now) }
    requires right_free { IsFree (bindings_of bindings.now.entries) (tree_of right) }
    requires valid { IsTrue (are_valid (trees_of (all_seen ts.now))) }
    ensures decided { IfOk result (λ rule. Decides (bindings_of bindings.now.entries) rule
        (tree_of left.entry) (tree_of right.entry)) }
    ensures sound { (most : ℕ) → IsTrue (is_sound most left.entry) →
        IsTrue (is_sound most right.entry) → IfOk result
        (λ rule. IsTrue (is_sound_rule most rule)) }
{
    match right.term {
        Term::Var(n) => bind(alloc, bindings, right.base + u64::from(*n), left),
        Term::Int(_) => Ok(Rule::Clash),
        Term::Atom(_) => Ok(Rule::Clash),
        Term::Cmp(g, us) => {
            let us = us.as_slice();
            if f.is(g) && ts.len() == us.len() {
                Ok(Rule::Split(
                    Arguments {
                        terms: ts,
                        base: left.base,
                    },
                    Arguments {
                        terms: us,
                        base: right.base,
                    },
                ))
            } else {
                Ok(Rule::Clash)
            }
        }
    }
}

// What is done with two terms.
pub(crate) fn rule<'a>(
    alloc: Global,
    bindings: &Bindings<'a>,
    left: Shifted<'a>,
    right: Shifted<'a>,
) -> Result<Rule<'a>, AllocError>
    requires triangular { IsTriangular (bindings_of bindings.now.entries) }
    requires sound { IsTrue (are_sound_bindings MAX_VARIABLE_BASE bindings.now.entries) }
    requires left { IsTrue (is_sound MAX_VARIABLE_BASE left) }
    requires right { IsTrue (is_sound MAX_VARIABLE_BASE right) }
    requires left_free { IsFree (bindings_of bindings.now.entries) (tree_of left) }
    requires right_free { IsFree (bindings_of bindings.now.entries) (tree_of right) }
    ensures decided { IfOk result (λ rule. Decides (bindings_of bindings.now.entries) rule
        (tree_of left.entry) (tree_of right.entry)) }
    ensures sound { (most : ℕ) → IsTrue (is_sound most left.entry) →
        IsTrue (is_sound most right.entry) → IfOk result
        (λ rule. IsTrue (is_sound_rule most rule)) }
{
    match left.term {
        Term::Var(m) => from_variable(alloc, bindings, left, left.base + u64::from(*m), right),
        Term::Int(y) => from_integer(alloc, bindings, left, *y, right),
        Term::Atom(f) => from_atom(alloc, bindings, left, f, right),
        Term::Cmp(f, ts) => from_compound(alloc, bindings, left, f, ts.as_slice(), right),
    }
}
