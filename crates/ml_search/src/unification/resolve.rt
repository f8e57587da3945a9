//! Terms with all that is bound replaced in them.
ghost use Rattle.std.specs.Prelude.{◌≡◌, IsTrue, IfOk, length};
ghost use Rattle.ml_search.specs.MapSeen.{map_seen};
ghost use Rattle.ml_search.specs.inside.Triangular.{IsTriangular, map_of};
ghost use Rattle.ml_search.specs.inside.Unifying.{are_sound_bindings, bindings_of, is_sound};
ghost use Rattle.ml_search.specs.inside.Unifying.{tree_of, trees_under};
ghost use Rattle.ml_term.specs.Seen.{all_seen, seen};
ghost use Rattle.ml_term.specs.Tree.{trees_of};
ghost use Rattle.ml_term.specs.Unify.{apply};
ghost use Rattle.ml_term.specs.Valid.{are_valid, is_valid};

use crate::limits::MAX_UNIFIER_LEVELS;
use crate::unification::bindings::{Bindings, binding_at, end_of};
use crate::unification::map::Map;
use crate::unification::pair::Shifted;
use ml_term::{Args, Term};
use std::alloc::{AllocError, Global};

// A term with all that is bound replaced in it. More than so many levels are answered as want of
// memory.
#[cycle(resolve)]
fn resolve<'a>(
    alloc: Global,
    bindings: &Bindings<'a>,
    levels: usize,
    at: Shifted<'a>,
) -> Result<Term, AllocError>
    requires triangular { IsTriangular (bindings_of bindings.now.entries) }
    requires sound { IsTrue (are_sound_bindings 0 bindings.now.entries) }
    requires at { IsTrue (is_sound 0 at) }
    ensures same { IfOk result
        (λ t. seen t ≡ apply (map_of (bindings_of bindings.now.entries)) (tree_of at.entry)) }
    ensures valid { IfOk result (λ t. IsTrue (is_valid (seen t))) }
{
    if levels == 0 {
        return Err(AllocError);
    }
    let end = end_of(bindings, at);
    match end.term {
        Term::Var(n) => Ok(Term::Var(*n)),
        Term::Int(v) => Ok(Term::Int(*v)),
        Term::Atom(f) => Ok(Term::Atom(f.copy_of(alloc)?)),
        Term::Cmp(f, ts) => {
            let name = f.copy_of(alloc)?;
            let args = resolve_all(alloc, bindings, levels - 1, ts.as_slice())?;
            Ok(Term::Cmp(name, Args::new(args)))
        }
    }
}

// The same of some terms.
#[cycle(resolve)]
fn resolve_all<'a>(
    alloc: Global,
    bindings: &Bindings<'a>,
    levels: usize,
    ts: &'a [Term],
) -> Result<Vec<Term>, AllocError>
    requires triangular { IsTriangular (bindings_of bindings.now.entries) }
    requires sound { IsTrue (are_sound_bindings 0 bindings.now.entries) }
    requires valid { IsTrue (are_valid (trees_of (all_seen ts.now))) }
    ensures same { IfOk result
        (λ us. trees_of (all_seen us.items)
        ≡ trees_under (map_of (bindings_of bindings.now.entries)) 0 ts.now) }
    ensures valid { IfOk result (λ us. IsTrue (are_valid (trees_of (all_seen us.items)))) }
    ensures count { IfOk result (λ us. length us.items ≡ length ts.now) }
{
    let mut us = Vec::new(alloc);
    for t in ts {
        let at = Shifted { term: t, base: 0 };
        us.push(resolve(alloc, bindings, levels, at)?)?;
    }
    Ok(us)
}

// The map that bindings stand for, with its terms built.
pub(crate) fn map_from<'a>(alloc: Global, bindings: &Bindings<'a>) -> Result<Map, AllocError>
    requires triangular { IsTriangular (bindings_of bindings.now.entries) }
    requires sound { IsTrue (are_sound_bindings 0 bindings.now.entries) }
    ensures { IfOk result (λ m. map_seen m ≡ map_of (bindings_of bindings.now.entries)) }
{
    let mut pairs = Vec::new(alloc);
    for i in 0..bindings.len() {
        let binding = binding_at(bindings, i);
        let term = resolve(alloc, bindings, MAX_UNIFIER_LEVELS, binding.to)?;
        pairs.push((binding.variable as u32, term))?;
    }
    Ok(Map::from_vec(pairs))
}
