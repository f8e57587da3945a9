//! Terms with a map's terms in place of variables.
ghost use Rattle.std.specs.Prelude.{◌≡◌, IsTrue, IfOk, length};
ghost use Rattle.ml_search.specs.MapSeen.{map_seen};
ghost use Rattle.ml_term.specs.Seen.{all_seen, seen};
ghost use Rattle.ml_term.specs.Tree.{substitute_in, trees_of};
ghost use Rattle.ml_term.specs.Unify.{apply, value_of};
ghost use Rattle.ml_term.specs.Valid.{are_valid, is_valid};

use crate::unification::map::Map;
use ml_term::{Args, Term};
use std::alloc::{AllocError, Global};

// A term with the map's term in place of each variable.
#[cycle(replace)]
fn replace(alloc: Global, m: &Map, t: &Term) -> Result<Term, AllocError>
    requires { IsTrue (is_valid (seen t.now)) }
    ensures same { IfOk result (λ u. seen u ≡ apply (map_seen m.now) (seen t.now)) }
    ensures valid { IfOk result (λ u. IsTrue (is_valid (seen u))) }
{
    match t {
        Term::Var(n) => match m.get(*n) {
            Some(term) => term.copy_of(alloc),
            None => Ok(Term::Var(*n)),
        },
        Term::Int(v) => Ok(Term::Int(*v)),
        Term::Atom(f) => Ok(Term::Atom(f.copy_of(alloc)?)),
        Term::Cmp(f, ts) => {
            let name = f.copy_of(alloc)?;
            let args = replace_all(alloc, m, ts.as_slice())?;
            Ok(Term::Cmp(name, Args::new(args)))
        }
    }
}

// The same of some terms.
#[cycle(replace)]
fn replace_all(alloc: Global, m: &Map, ts: &[Term]) -> Result<Vec<Term>, AllocError>
    requires { IsTrue (are_valid (trees_of (all_seen ts.now))) }
    ensures same { IfOk result
        (λ us. trees_of (all_seen us.items)
        ≡ substitute_in (value_of (map_seen m.now)) (trees_of (all_seen ts.now))) }
    ensures valid { IfOk result (λ us. IsTrue (are_valid (trees_of (all_seen us.items)))) }
    ensures count { IfOk result (λ us. length us.items ≡ length ts.now) }
{
    let mut us = Vec::new(alloc);
    for t in ts {
        us.push(replace(alloc, m, t)?)?;
    }
    Ok(us)
}

/// A term with the map's term in place of each variable. It takes memory for the whole result,
/// which can be exponentially larger than the terms that were unified.
pub fn apply(alloc: Global, m: &Map, t: &Term) -> Result<Term, AllocError>
    requires { IsTrue (is_valid (seen t.now)) }
    ensures same { IfOk result (λ u. seen u ≡ apply (map_seen m.now) (seen t.now)) }
    ensures valid { IfOk result (λ u. IsTrue (is_valid (seen u))) }
{
    replace(alloc, m, t)
}
