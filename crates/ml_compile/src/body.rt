//! The instructions that spell bodies. The recursion follows brackets: the right operands of `,`
//! are gone over in a loop.
ghost use Rattle.std.specs.Prelude.{◌≡◌, ◌<◌, ◌≤◌, ◌-◌, OnOk, codes, false, length, slice_set, vec_len};
ghost use Rattle.ml_compile.specs.declared.instr.Instr.TheVariants.{Choose, Try};
ghost use Rattle.ml_compile.specs.inside.Appended.{Blocked, Spelled, is_pair};
ghost use Rattle.ml_search.specs.Bodies.{body_from, body_from_atom, disjunction_of, fail_goal, if_then, if_then_else};
ghost use Rattle.ml_compile.specs.Spells.{called_body};
ghost use Rattle.ml_term.specs.Seen.{all_seen, seen};
ghost use Rattle.ml_term.specs.Tree.{variable};

use crate::arguments::build_all;
use crate::instr::Instr;
use crate::parts::operands_of;
use ml_term::{Name, Pred, Term};
use std::alloc::{AllocError, Global};

/// Appends the instructions of a body.
#[cycle(spell)]
fn spell(alloc: Global, body: &Term, code: &mut Vec<Instr>) -> Result<(), AllocError>
    ensures { OnOk result (Spelled code.old.items (body_from (seen body.now)) code.new.items) }
{
    let mut rest = body;
    loop {
        match operands_of(rest, b",".as_slice()) {
            Some((first, others)) => {
                spell(alloc, first, code)?;
                rest = others;
            }
            None => {
                spell_goal(alloc, rest, code)?;
                return Ok(());
            }
        }
    }
}

/// Appends the instructions of a body that is no conjunction.
#[cycle(spell)]
fn spell_goal(alloc: Global, body: &Term, code: &mut Vec<Instr>) -> Result<(), AllocError>
    requires { is_pair (codes ",") (seen body.now) ≡ false }
    ensures { OnOk result (Spelled code.old.items (body_from (seen body.now)) code.new.items) }
{
    if let Some((first, second)) = operands_of(body, b";".as_slice()) {
        spell_disjunction(alloc, first, second, code)?;
        return Ok(());
    }
    if let Some((condition, then)) = operands_of(body, b"->".as_slice()) {
        spell_if_then(alloc, condition, then, code)?;
        return Ok(());
    }
    match body {
        Term::Var(n) => spell_variable(alloc, *n, code),
        Term::Int(_) => spell_fail(code),
        Term::Atom(name) => spell_atom(alloc, name, code),
        Term::Cmp(name, args) => spell_call(alloc, name, args.as_slice(), code),
    }
}

/// Appends the instruction that fails.
fn spell_fail(code: &mut Vec<Instr>) -> Result<(), AllocError>
    ensures { OnOk result (Spelled code.old.items fail_goal code.new.items) }
{
    code.push(Instr::Fail)?;
    Ok(())
}

/// Appends the instructions of a variable that stands as a body.
fn spell_variable(alloc: Global, n: u32, code: &mut Vec<Instr>) -> Result<(), AllocError>
    ensures { OnOk result (Spelled code.old.items (body_from (variable n)) code.new.items) }
{
    code.push(Instr::PutVar(n))?;
    let name = Name::new(alloc, b"call".as_slice())?;
    code.push(Instr::Call(Pred { name, arity: 1 }))?;
    Ok(())
}

/// Appends the instruction of an atom that stands as a body.
fn spell_atom(alloc: Global, name: &Name, code: &mut Vec<Instr>) -> Result<(), AllocError>
    ensures { OnOk result (Spelled code.old.items (body_from_atom name.now) code.new.items) }
{
    let bytes = name.as_slice();
    if bytes == b"true".as_slice() {
        code.push(Instr::True)?;
        return Ok(());
    }
    if bytes == b"fail".as_slice() {
        code.push(Instr::Fail)?;
        return Ok(());
    }
    if bytes == b"!".as_slice() {
        code.push(Instr::Cut)?;
        return Ok(());
    }
    let name = name.copy_of(alloc)?;
    code.push(Instr::Call(Pred { name, arity: 0 }))?;
    Ok(())
}

/// Appends the instructions of a call: its arguments are built before it.
fn spell_call(
    alloc: Global,
    name: &Name,
    args: &[Term],
    code: &mut Vec<Instr>,
) -> Result<(), AllocError>
    requires { length args.now ≤ 255 }
    ensures { OnOk result
        (Spelled code.old.items (called_body name.now (all_seen args.now)) code.new.items) }
{
    build_all(alloc, args, code)?;
    let name = name.copy_of(alloc)?;
    let arity = args.len() as u8;
    code.push(Instr::Call(Pred { name, arity }))?;
    Ok(())
}

/// Appends a block of a body: its instructions, and its end.
#[cycle(spell)]
pub(crate) fn spell_block(
    alloc: Global,
    body: &Term,
    code: &mut Vec<Instr>,
) -> Result<(), AllocError>
    ensures { OnOk result (Blocked code.old.items (body_from (seen body.now)) code.new.items) }
{
    spell(alloc, body, code)?;
    code.push(Instr::Proceed)?;
    Ok(())
}

/// Appends the instructions of a disjunction: a condition on its left makes it a choice between
/// two.
#[cycle(spell)]
fn spell_disjunction(
    alloc: Global,
    first: &Term,
    second: &Term,
    code: &mut Vec<Instr>,
) -> Result<(), AllocError>
    ensures { OnOk result (Spelled code.old.items
        (disjunction_of (body_from (seen first.now)) (body_from (seen second.now)))
        code.new.items) }
{
    if let Some((condition, then)) = operands_of(first, b"->".as_slice()) {
        spell_if_then_else(alloc, condition, then, second, code)?;
        return Ok(());
    }
    let at = code.len();
    code.push(Instr::Try(0, 0))?;
    spell_block(alloc, first, code)?;
    let behind = code.len();
    spell_block(alloc, second, code)?;
    close_disjunction(code, at, behind);
    Ok(())
}

/// Writes the offsets of the disjunction at a place, whose second block begins at another, and
/// which ends where the code does.
fn close_disjunction(code: &mut Vec<Instr>, at: usize, second: usize)
    requires at { at < vec_len code.old }
    requires second { at ≤ second }
    ensures { code.new.items ≡
        slice_set code.old.items at (Try (second - at) (length code.old.items - at)) }
{
    let end = code.len();
    code[at] = Instr::Try(second - at, end - at);
}

/// Appends the instructions of a condition with an alternative.
#[cycle(spell)]
fn spell_if_then_else(
    alloc: Global,
    condition: &Term,
    then: &Term,
    otherwise: &Term,
    code: &mut Vec<Instr>,
) -> Result<(), AllocError>
    ensures { OnOk result (Spelled code.old.items
        (if_then_else (body_from (seen condition.now)) (body_from (seen then.now))
        (body_from (seen otherwise.now))) code.new.items) }
{
    let at = code.len();
    code.push(Instr::Choose(0, 0, 0))?;
    spell_block(alloc, condition, code)?;
    let second = code.len();
    spell_block(alloc, then, code)?;
    let third = code.len();
    spell_block(alloc, otherwise, code)?;
    close_condition(code, at, second, third);
    Ok(())
}

/// Appends the instructions of a condition without an alternative: one that fails.
#[cycle(spell)]
fn spell_if_then(
    alloc: Global,
    condition: &Term,
    then: &Term,
    code: &mut Vec<Instr>,
) -> Result<(), AllocError>
    ensures { OnOk result (Spelled code.old.items
        (if_then (body_from (seen condition.now)) (body_from (seen then.now))) code.new.items) }
{
    let at = code.len();
    code.push(Instr::Choose(0, 0, 0))?;
    spell_block(alloc, condition, code)?;
    let second = code.len();
    spell_block(alloc, then, code)?;
    let failing = code.len();
    spell_failure(code)?;
    close_condition(code, at, second, failing);
    Ok(())
}

/// Appends a block that fails.
fn spell_failure(code: &mut Vec<Instr>) -> Result<(), AllocError>
    ensures { OnOk result (Blocked code.old.items fail_goal code.new.items) }
{
    spell_fail(code)?;
    let end = Instr::Proceed;
    code.push(end)?;
    Ok(())
}

/// Writes the offsets of the condition at a place, whose second and third block begin at others,
/// and which ends where the code does.
fn close_condition(code: &mut Vec<Instr>, at: usize, second: usize, third: usize)
    requires at { at < vec_len code.old }
    requires second { at ≤ second }
    requires third { at ≤ third }
    ensures { code.new.items ≡ slice_set code.old.items at
        (Choose (second - at) (third - at) (length code.old.items - at)) }
{
    let end = code.len();
    code[at] = Instr::Choose(second - at, third - at, end - at);
}
