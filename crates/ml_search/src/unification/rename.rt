//! Terms with new variables.
ghost use Rattle.std.specs.Prelude.{◌≡◌, ◌+◌, ◌^◌, ◌≤◌, ◌<◌, ◌++◌, IsTrue, IfOk, OnOk, length};
ghost use Rattle.std.specs.List.{list_all};
ghost use Rattle.ml_search.specs.inside.Meeting.{variables_met};
ghost use Rattle.ml_term.specs.Seen.{all_seen, seen};
ghost use Rattle.ml_term.specs.Tree.{firsts, has, place_in, rename, substitute, substitute_in};
ghost use Rattle.ml_term.specs.Tree.{trees_of, variable, variables, variables_of, width};
ghost use Rattle.ml_term.specs.Valid.{are_valid, is_valid};

use indexmap::IndexSet;
use ml_term::{Args, Term};
use std::alloc::{AllocError, Global};

// The place of a number among some, from 0, and their count where it isn't there.
fn place_of(numbers: &IndexSet<u32>, n: u32) -> usize
    ensures { result ≡ place_in numbers.now.keys n }
{
    match numbers.get_index_of(&n) {
        Some(i) => i,
        None => numbers.len(),
    }
}

// Puts the variables of a term that weren't met yet behind those that were, in the order of their
// first places.
#[cycle(meet)]
fn meet(met: &mut IndexSet<u32>, t: &Term) -> Result<(), AllocError>
    ensures { OnOk result (met.new.keys ≡ variables_met met.old.keys (variables (seen t.now))) }
{
    match t {
        Term::Var(n) => {
            met.insert(*n)?;
            Ok(())
        }
        Term::Int(_) => Ok(()),
        Term::Atom(_) => Ok(()),
        Term::Cmp(_, ts) => meet_all(met, ts.as_slice()),
    }
}

// The same of some terms.
#[cycle(meet)]
fn meet_all(met: &mut IndexSet<u32>, ts: &[Term]) -> Result<(), AllocError>
    ensures { OnOk result
        (met.new.keys ≡ variables_met met.old.keys (variables_of (trees_of (all_seen ts.now)))) }
{
    for t in ts {
        meet(met, t)?;
    }
    Ok(())
}

// A term with a new variable, by its place, in the place of each of some.
#[cycle(renumber)]
fn renumber(alloc: Global, met: &IndexSet<u32>, first: u32, t: &Term) -> Result<Term, AllocError>
    requires valid { IsTrue (is_valid (seen t.now)) }
    requires known { IsTrue (list_all (λ n. has n met.now.keys) (variables (seen t.now))) }
    requires room { first + length met.now.keys ≤ 2 ^ 32 }
    ensures same { IfOk result
        (λ u. seen u ≡ substitute (λ n. variable (first + place_in met.now.keys n)) (seen t.now)) }
    ensures valid { IfOk result (λ u. IsTrue (is_valid (seen u))) }
{
    match t {
        Term::Var(n) => Ok(Term::Var(first + place_of(met, *n) as u32)),
        Term::Int(v) => Ok(Term::Int(*v)),
        Term::Atom(f) => Ok(Term::Atom(f.copy_of(alloc)?)),
        Term::Cmp(f, ts) => {
            let name = f.copy_of(alloc)?;
            let args = renumber_all(alloc, met, first, ts.as_slice())?;
            Ok(Term::Cmp(name, Args::new(args)))
        }
    }
}

// The same of some terms.
#[cycle(renumber)]
fn renumber_all(
    alloc: Global,
    met: &IndexSet<u32>,
    first: u32,
    ts: &[Term],
) -> Result<Vec<Term>, AllocError>
    requires valid { IsTrue (are_valid (trees_of (all_seen ts.now))) }
    requires known { IsTrue
        (list_all (λ n. has n met.now.keys) (variables_of (trees_of (all_seen ts.now)))) }
    requires room { first + length met.now.keys ≤ 2 ^ 32 }
    ensures same { IfOk result (λ us. trees_of (all_seen us.items) ≡
        substitute_in (λ n. variable (first + place_in met.now.keys n))
        (trees_of (all_seen ts.now))) }
    ensures valid { IfOk result (λ us. IsTrue (are_valid (trees_of (all_seen us.items)))) }
    ensures count { IfOk result (λ us. length us.items ≡ length ts.now) }
{
    let mut us = Vec::new(alloc);
    for t in ts {
        us.push(renumber(alloc, met, first, t)?)?;
    }
    Ok(us)
}

/// A term whose variables are `first` and the numbers that follow it, by first place.
pub fn rename(alloc: Global, t: &Term, first: u32) -> Result<Term, AllocError>
    requires valid { IsTrue (is_valid (seen t.now)) }
    requires room { first + width (seen t.now) ≤ 2 ^ 32 }
    ensures same { IfOk result (λ u. seen u ≡ rename first (seen t.now)) }
    ensures valid { IfOk result (λ u. IsTrue (is_valid (seen u))) }
{
    let mut met = IndexSet::new(alloc);
    meet(&mut met, t)?;
    renumber(alloc, &met, first, t)
}
