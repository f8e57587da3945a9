//! The compiler's two calls.
ghost use Rattle.std.specs.Prelude.{IfOk};
ghost use Rattle.ml_compile.specs.Spells.{IsBlock, SpellsClause};
ghost use Rattle.ml_search.specs.Bodies.{body_from};
ghost use Rattle.ml_search.specs.ClauseSeen.{clause_seen};
ghost use Rattle.ml_term.specs.Seen.{seen};

use crate::body::spell_block;
use crate::code::Code;
use crate::count::after_variables;
use crate::head::match_head;
use crate::instr::Instr;
use ml_search::Clause;
use ml_term::Term;
use std::alloc::{AllocError, Global};

/// The code of a clause. Want of memory is the answer too where it has 2^32 variables.
pub fn compile_clause(alloc: Global, clause: &Clause) -> Result<Code, AllocError>
    ensures { IfOk result (λ code. SpellsClause code (clause_seen clause.now)) }
{
    let mut code = Vec::new(alloc);
    let in_head = after_variables(0, &clause.head)?;
    let variables = after_variables(in_head, &clause.body)?;
    code.push(Instr::Enter(variables))?;
    match_head(alloc, &clause.head, &mut code)?;
    spell_block(alloc, &clause.body, &mut code)?;
    Ok(Code::from_vec(code))
}

/// The code of a body: one block, whose variables have the numbers that they have in the term. The
/// code of an integer, which is no goal, fails.
pub fn compile_body(alloc: Global, body: &Term) -> Result<Code, AllocError>
    ensures { IfOk result (λ code. IsBlock code 0 (body_from (seen body.now))) }
{
    let mut code = Vec::new(alloc);
    spell_block(alloc, body, &mut code)?;
    Ok(Code::from_vec(code))
}
