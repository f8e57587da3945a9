//! Terms from their parts.
ghost use Rattle.std.specs.Prelude.{◌≡◌, ◌<◌, IfOk, IsTrue, length};
ghost use Rattle.ml_term.specs.Limits.{max_arguments};
ghost use Rattle.ml_term.specs.Names.{is_name};
ghost use Rattle.ml_term.specs.Seen.{seen, all_seen};
ghost use Rattle.ml_term.specs.Tree.{compound, compound_1, compound_2, tree, no_trees};
ghost use Rattle.ml_reader.specs.Lexemes.{cell, cells, trees_onto};
ghost use Rattle.ml_reader.specs.Seen.{reversed_trees};

use ml_term::{ArgsOf, Name, Term};
use std::alloc::{AllocError, Global};

/// A compound of one argument.
pub fn one_of(alloc: Global, name: Name, t: Term) -> Result<Term, AllocError>
    ensures { IfOk result (λ r. seen r ≡ compound_1 name (seen t)) }
{
    Ok(Term::Cmp(name, ArgsOf::new(vec![in alloc; t]?)))
}

/// A compound of two arguments.
pub fn two_of(alloc: Global, name: Name, t: Term, u: Term) -> Result<Term, AllocError>
    ensures { IfOk result (λ r. seen r ≡ compound_2 name (seen t) (seen u)) }
{
    Ok(Term::Cmp(name, ArgsOf::new(vec![in alloc; t, u]?)))
}

/// A cell of a list.
pub fn cell_of(alloc: Global, t: Term, u: Term) -> Result<Term, AllocError>
    ensures { IfOk result (λ r. seen r ≡ cell (seen t) (seen u)) }
{
    let name = Name::new(alloc, b".")?;
    two_of(alloc, name, t, u)
}

/// A compound of arguments and a last one.
pub fn compound_of(
    alloc: Global,
    name: Name,
    mut items: Vec<Term>,
    last: Term,
) -> Result<Term, AllocError>
    requires { length items.items < max_arguments }
    ensures { IfOk result (λ r.
        seen r ≡ compound name (trees_onto (reversed_trees (all_seen items.items) no_trees)
        (tree (seen last) no_trees))) }
{
    items.push(last)?;
    Ok(Term::Cmp(name, ArgsOf::new(items)))
}

/// The cells of the elements before an end.
pub fn list_of(alloc: Global, mut items: Vec<Term>, mut end: Term) -> Result<Term, AllocError>
    ensures { IfOk result (λ r.
        seen r ≡ cells (reversed_trees (all_seen items.items) no_trees) (seen end)) }
{
    while let Some(t) = items.pop() {
        end = cell_of(alloc, t, end)?;
    }
    Ok(end)
}
