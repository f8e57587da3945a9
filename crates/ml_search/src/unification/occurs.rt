//! Whether a variable stands in a term, once all that is bound is replaced in it.
ghost use Rattle.std.specs.Prelude.{◌≡◌, ◌≤◌, IsTrue, IfOk, OnOk, None};
ghost use Rattle.ml_search.specs.MapSeen.{bound_term};
ghost use Rattle.ml_search.specs.inside.Meeting.{variables_met};
ghost use Rattle.ml_search.specs.inside.Triangular.{IsTriangular, map_of};
ghost use Rattle.ml_search.specs.inside.Unifying.{are_sound_bindings, arguments_from, bindings_of};
ghost use Rattle.ml_search.specs.inside.Unifying.{is_sound, tree_of};
ghost use Rattle.ml_search.specs.Actions.{shift_variables};
ghost use Rattle.ml_term.specs.Seen.{all_seen, seen};
ghost use Rattle.ml_term.specs.Tree.{occurs, trees_of, variables, variables_of};
ghost use Rattle.ml_term.specs.Unify.{apply};
ghost use Rattle.ml_term.specs.Valid.{are_valid, is_valid};

use crate::unification::bindings::{Bindings, MAX_VARIABLE_BASE, bound_to};
use crate::unification::pair::Shifted;
use indexmap::IndexSet;
use ml_term::Term;
use std::alloc::{AllocError, Global};

// Puts the variables of a term that weren't met yet behind those that were, in the order of their
// first places.
#[cycle(meet_from)]
fn meet_from(met: &mut IndexSet<u64>, t: &Term, base: u64) -> Result<(), AllocError>
    requires base { base ≤ MAX_VARIABLE_BASE }
    requires valid { IsTrue (is_valid (seen t.now)) }
    ensures { OnOk result (met.new.keys
        ≡ variables_met met.old.keys (variables (shift_variables base (seen t.now)))) }
{
    match t {
        Term::Var(n) => {
            met.insert(base + u64::from(*n))?;
            Ok(())
        }
        Term::Int(_) => Ok(()),
        Term::Atom(_) => Ok(()),
        Term::Cmp(_, ts) => meet_all_from(met, ts.as_slice(), base),
    }
}

// The same of some terms.
#[cycle(meet_from)]
fn meet_all_from(met: &mut IndexSet<u64>, ts: &[Term], base: u64) -> Result<(), AllocError>
    requires base { base ≤ MAX_VARIABLE_BASE }
    requires valid { IsTrue (are_valid (trees_of (all_seen ts.now))) }
    ensures { OnOk result (met.new.keys
        ≡ variables_met met.old.keys (variables_of (arguments_from base ts.now))) }
{
    for t in ts {
        meet_from(met, t, base)?;
    }
    Ok(())
}

// Whether a variable that isn't bound stands in a term, once all that is bound is replaced in it.
// Each variable that is met is looked up once, and so each binding is walked once.
pub(crate) fn occurs<'a>(
    alloc: Global,
    bindings: &Bindings<'a>,
    variable: u64,
    at: Shifted<'a>,
) -> Result<bool, AllocError>
    requires triangular { IsTriangular (bindings_of bindings.now.entries) }
    requires sound { IsTrue (are_sound_bindings MAX_VARIABLE_BASE bindings.now.entries) }
    requires at { IsTrue (is_sound MAX_VARIABLE_BASE at) }
    requires free { bound_term (bindings_of bindings.now.entries) variable ≡ None }
    ensures { IfOk result (λ found. found
        ≡ occurs variable (apply (map_of (bindings_of bindings.now.entries)) (tree_of at.entry))) }
{
    let _no_two_of_one_variable = bindings.len();
    let mut met = IndexSet::new(alloc);
    meet_from(&mut met, at.term, at.base)?;
    for i in 0..usize::MAX {
        let Some(n) = met.get_index(i).copied() else {
            return Ok(false);
        };
        match bound_to(bindings, n) {
            Some(to) => meet_from(&mut met, to.term, to.base)?,
            None if n == variable => return Ok(true),
            None => {}
        }
    }
    Err(AllocError)
}
