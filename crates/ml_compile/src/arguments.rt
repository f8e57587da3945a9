//! The instructions that build the arguments of goals.
ghost use Rattle.std.specs.Prelude.{◌≡◌, ◌≤◌, [], ◌∷◌, ◌++◌, OnOk, length, reverse};
ghost use Rattle.ml_compile.specs.inside.Appended.{Built};
ghost use Rattle.ml_term.specs.Seen.{all_seen, seen};

use crate::instr::Instr;
use crate::parts::front_and_last;
use ml_term::Term;
use std::alloc::{AllocError, Global};

/// Appends the instructions that build a term: a compound stands behind its arguments.
#[cycle(build)]
fn build(alloc: Global, term: &Term, code: &mut Vec<Instr>) -> Result<(), AllocError>
    ensures { OnOk result (Built code.old.items (seen term.now ∷ []) code.new.items) }
{
    let mut compounds = Vec::new(alloc);
    build_inside(alloc, term, &mut compounds, code)?;
    while let Some(compound) = compounds.pop() {
        code.push(compound)?;
    }
    Ok(())
}

/// Appends the instructions that build a term, but for the compounds along its last arguments.
/// Their instructions are put into a vector, the outermost first.
#[cycle(build)]
fn build_inside(
    alloc: Global,
    term: &Term,
    compounds: &mut Vec<Instr>,
    code: &mut Vec<Instr>,
) -> Result<(), AllocError>
    requires { compounds.old.items ≡ [] }
    ensures { OnOk result
        (Built code.old.items (seen term.now ∷ [])
        (code.new.items ++ reverse compounds.new.items)) }
{
    let mut rest = term;
    loop {
        match rest {
            Term::Var(n) => {
                code.push(Instr::PutVar(*n))?;
                return Ok(());
            }
            Term::Int(value) => {
                code.push(Instr::PutInt(*value))?;
                return Ok(());
            }
            Term::Atom(name) => {
                code.push(Instr::PutAtom(name.copy_of(alloc)?))?;
                return Ok(());
            }
            Term::Cmp(name, args) => {
                let (front, last) = front_and_last(args);
                build_all(alloc, front, code)?;
                compounds.push(Instr::PutCmp(name.copy_of(alloc)?, args.as_slice().len() as u8))?;
                rest = last;
            }
        }
    }
}

/// Appends the instructions that build some terms, from the left.
#[cycle(build)]
pub(crate) fn build_all(
    alloc: Global,
    terms: &[Term],
    code: &mut Vec<Instr>,
) -> Result<(), AllocError>
    ensures { OnOk result (Built code.old.items (all_seen terms.now) code.new.items) }
{
    for term in terms {
        build(alloc, term, code)?;
    }
    Ok(())
}
