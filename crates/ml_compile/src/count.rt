//! How many nodes and variables a term has. The walks are loops along last arguments, so they are
//! as deep as brackets and not as long as lists.
ghost use Rattle.std.specs.Prelude.{◌≡◌, ◌+◌, IfOk};
ghost use Rattle.ml_term.specs.Seen.{all_seen, seen};
ghost use Rattle.ml_term.specs.Tree.{nodes, nodes_of, trees_of, variables, variables_of};
ghost use Rattle.ml_term.specs.inside.Reading.{met_after_variables};
ghost use Rattle.ml_term.specs.FirstDefect.{met_after_variable};

use crate::parts::front_and_last;
use ml_term::Term;
use std::alloc::AllocError;

/// One more. Counts of 2^64 are refused as memory is.
fn one_more(count: usize) -> Result<usize, AllocError>
    ensures { IfOk result (λ n. n ≡ count + 1) }
{
    match count.checked_add(1) {
        Some(n) => Ok(n),
        None => Err(AllocError),
    }
}

/// A count and the nodes of a term.
#[cycle(nodes)]
pub(crate) fn with_nodes(count: usize, term: &Term) -> Result<usize, AllocError>
    ensures { IfOk result (λ n. n ≡ count + nodes (seen term.now)) }
{
    let mut count = count;
    let mut rest = term;
    while let Term::Cmp(_, args) = rest {
        let (front, last) = front_and_last(args);
        count = with_nodes_of(one_more(count)?, front)?;
        rest = last;
    }
    one_more(count)
}

/// A count and the nodes of some terms.
#[cycle(nodes)]
fn with_nodes_of(count: usize, terms: &[Term]) -> Result<usize, AllocError>
    ensures { IfOk result (λ n. n ≡ count + nodes_of (trees_of (all_seen terms.now))) }
{
    let mut count = count;
    for term in terms {
        count = with_nodes(count, term)?;
    }
    Ok(count)
}

/// How many variables have been met after a variable, where so many had been met before. 2^32 of
/// them are refused as memory is.
pub(crate) fn after_variable(met: u32, n: u32) -> Result<u32, AllocError>
    ensures { IfOk result (λ after. after ≡ met_after_variable met n) }
{
    if n != met {
        return Ok(met);
    }
    match met.checked_add(1) {
        Some(after) => Ok(after),
        None => Err(AllocError),
    }
}

/// How many variables have been met after a term, where so many had been met before.
#[cycle(variables)]
pub(crate) fn after_variables(met: u32, term: &Term) -> Result<u32, AllocError>
    ensures { IfOk result (λ after. after ≡ met_after_variables met (variables (seen term.now))) }
{
    let mut met = met;
    let mut rest = term;
    loop {
        match rest {
            Term::Var(n) => return after_variable(met, *n),
            Term::Int(_) => return Ok(met),
            Term::Atom(_) => return Ok(met),
            Term::Cmp(_, args) => {
                let (front, last) = front_and_last(args);
                met = after_variables_of(met, front)?;
                rest = last;
            }
        }
    }
}

/// How many variables have been met after some terms, where so many had been met before.
#[cycle(variables)]
fn after_variables_of(met: u32, terms: &[Term]) -> Result<u32, AllocError>
    ensures { IfOk result (λ after.
        after ≡ met_after_variables met (variables_of (trees_of (all_seen terms.now)))) }
{
    let mut met = met;
    for term in terms {
        met = after_variables(met, term)?;
    }
    Ok(met)
}
