//! The unifier of two terms, and whether there is one. In reading order: pairs of terms that are to
//! be made equal, bindings, whether a variable stands in a term, what is done with one equation,
//! the loop over all of them, the terms of the map that bindings stand for, and the map, with what
//! it makes of other terms.
ghost use Rattle.std.specs.Prelude.{◌≡◌, ◌↔◌, IsTrue, IfOk};
ghost use Rattle.std.specs.Option.{is_some, option_map};
ghost use Rattle.ml_search.specs.MapSeen.{map_seen};
ghost use Rattle.ml_search.specs.Replay.{rename_apart};
ghost use Rattle.ml_term.specs.Instances.{HaveACommonInstance};
ghost use Rattle.ml_term.specs.Seen.{seen};
ghost use Rattle.ml_term.specs.Unify.{unifier};
ghost use Rattle.ml_term.specs.Valid.{is_valid};

pub(crate) mod apply;
mod bindings;
mod equation;
pub(crate) mod map;
mod occurs;
mod pair;
pub(crate) mod rename;
mod resolve;
mod solve;

use crate::unification::bindings::MAX_VARIABLE_BASE;
use crate::unification::map::Map;
use crate::unification::pair::Shifted;
use crate::unification::resolve::map_from;
use crate::unification::solve::solve;
use ml_term::Term;
use std::alloc::{AllocError, Global};

/// The most general unifier of two terms, and none where they have none. Until it is found, the
/// terms of bindings are parts of the given terms; the map's own terms can be exponentially larger,
/// and one of more than 4,096 levels is answered as want of memory.
pub fn mgu(alloc: Global, a: &Term, b: &Term) -> Result<Option<Map>, AllocError>
    requires a { IsTrue (is_valid (seen a.now)) }
    requires b { IsTrue (is_valid (seen b.now)) }
    ensures { IfOk result (λ found. option_map map_seen found ≡ unifier (seen a.now) (seen b.now)) }
{
    let left = Shifted { term: a, base: 0 };
    let right = Shifted { term: b, base: 0 };
    match solve(alloc, left, right)? {
        None => Ok(None),
        Some(bindings) => Ok(Some(map_from(alloc, &bindings)?)),
    }
}

/// Whether a pattern unifies with a head whose variables are renamed apart from the pattern's. It
/// copies no term: it takes memory for the bindings, for the pairs that are left, and for the
/// variables that an occurs check meets.
pub fn unifies(alloc: Global, pattern: &Term, head: &Term) -> Result<bool, AllocError>
    requires pattern { IsTrue (is_valid (seen pattern.now)) }
    requires head { IsTrue (is_valid (seen head.now)) }
    ensures same { IfOk result
        (λ found. found
        ≡ is_some (unifier (seen pattern.now) (rename_apart (seen pattern.now) (seen head.now)))) }
    ensures instance { IfOk result
        (λ found. IsTrue found ↔ HaveACommonInstance (seen pattern.now) (seen head.now)) }
{
    let left = Shifted {
        term: pattern,
        base: 0,
    };
    let right = Shifted {
        term: head,
        base: MAX_VARIABLE_BASE,
    };
    Ok(solve(alloc, left, right)?.is_some())
}
