//! The instructions that match the arguments of heads.
ghost use Rattle.std.specs.Prelude.{◌≡◌, [], ◌∷◌, IsTrue, IfOk};
ghost use Rattle.ml_compile.specs.inside.Appended.{Matched};
ghost use Rattle.ml_term.specs.Keys.{arguments};
ghost use Rattle.ml_term.specs.Seen.{all_seen, seen};
ghost use Rattle.ml_term.specs.Tree.{list_of, trees_of, variable, variables, variables_of};
ghost use Rattle.ml_term.specs.inside.Reading.{are_in_order, met_after_variables};

use crate::count::{after_variable, with_nodes};
use crate::instr::Instr;
use crate::parts::front_and_last;
use ml_term::Term;
use std::alloc::{AllocError, Global};

/// Appends the instruction that matches a variable, where so many have been met. Gives how many
/// have been met then.
fn match_variable(met: u32, n: u32, code: &mut Vec<Instr>) -> Result<u32, AllocError>
    requires { IsTrue (are_in_order met (n ∷ [])) }
    ensures matched { IfOk result (λ after.
        Matched code.old.items met (variable n ∷ []) after code.new.items) }
    ensures met { IfOk result (λ after. after ≡ met_after_variables met (n ∷ [])) }
{
    if n < met {
        code.push(Instr::GetAgain(n))?;
        return Ok(met);
    }
    code.push(Instr::GetFirst(n))?;
    let after = after_variable(met, n)?;
    Ok(after)
}

/// Appends the instructions that match a term: a compound stands before its arguments. So many
/// variables have been met; gives how many have been met then.
#[cycle(head)]
fn match_term(
    alloc: Global,
    met: u32,
    term: &Term,
    code: &mut Vec<Instr>,
) -> Result<u32, AllocError>
    requires { IsTrue (are_in_order met (variables (seen term.now))) }
    ensures matched { IfOk result (λ after.
        Matched code.old.items met (seen term.now ∷ []) after code.new.items) }
    ensures met { IfOk result (λ after.
        after ≡ met_after_variables met (variables (seen term.now))) }
{
    let end = with_nodes(code.len(), term)?;
    let mut met = met;
    let mut rest = term;
    loop {
        match rest {
            Term::Var(n) => return match_variable(met, *n, code),
            Term::Int(value) => {
                code.push(Instr::GetInt(*value))?;
                return Ok(met);
            }
            Term::Atom(name) => {
                code.push(Instr::GetAtom(name.copy_of(alloc)?))?;
                return Ok(met);
            }
            Term::Cmp(name, args) => {
                let size = end - code.len();
                let count = args.as_slice().len() as u8;
                code.push(Instr::GetCmp(name.copy_of(alloc)?, count, size))?;
                let (front, last) = front_and_last(args);
                met = match_all(alloc, met, front, code)?;
                rest = last;
            }
        }
    }
}

/// Appends the instructions that match some terms, from the left.
#[cycle(head)]
fn match_all(
    alloc: Global,
    met: u32,
    terms: &[Term],
    code: &mut Vec<Instr>,
) -> Result<u32, AllocError>
    requires { IsTrue (are_in_order met (variables_of (trees_of (all_seen terms.now)))) }
    ensures matched { IfOk result (λ after.
        Matched code.old.items met (all_seen terms.now) after code.new.items) }
    ensures met { IfOk result (λ after.
        after ≡ met_after_variables met (variables_of (trees_of (all_seen terms.now)))) }
{
    let mut met = met;
    for term in terms {
        met = match_term(alloc, met, term, code)?;
    }
    Ok(met)
}

/// Appends the instructions that match the arguments of a clause's head. Gives how many variables
/// have been met then.
pub(crate) fn match_head(
    alloc: Global,
    head: &Term,
    code: &mut Vec<Instr>,
) -> Result<u32, AllocError>
    requires { IsTrue (are_in_order 0 (variables (seen head.now))) }
    ensures { IfOk result (λ met.
        Matched code.old.items 0 (list_of (arguments (seen head.now))) met code.new.items) }
{
    match head {
        Term::Var(_) => Ok(0),
        Term::Int(_) => Ok(0),
        Term::Atom(_) => Ok(0),
        Term::Cmp(_, args) => {
            let met = match_all(alloc, 0, args.as_slice(), code)?;
            Ok(met)
        }
    }
}
