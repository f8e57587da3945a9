//! Procedures, and the filing of clauses under them.
ghost use Rattle.std.specs.Prelude.{◌≡◌, ◌+◌, ◌^◌, ◌<◌, IfOk, IsTrue, length, OnOk};
ghost use Rattle.ml_compile.specs.declared.instr.Instr.{Instr};
ghost use Rattle.ml_program.specs.inside.Filing.{AreFew, AreFiled, predicates_of, procedures_seen, with_code};
ghost use Rattle.ml_search.specs.ClauseSeen.{clauses_seen};
ghost use Rattle.ml_search.specs.Program.{arity_of, name_of};
ghost use Rattle.ml_search.specs.WellFormed.{is_clause_head};
ghost use Rattle.ml_term.specs.Seen.{seen};

use crate::links::Links;
use indexmap::IndexSet;
use ml_compile::{Code, compile_clause};
use ml_search::Clause;
use ml_term::{Pred, Term};
use std::alloc::{AllocError, Global};

/// A predicate and the codes of its clauses, in order.
#[derive(Drop)]
pub(crate) struct Procedure {
    pub pred: Pred,
    pub codes: Vec<Code>,
}

/// A procedure, with the links beside each of its codes.
#[derive(Drop)]
pub(crate) struct LinkedProcedure {
    pub procedure: Procedure,
    pub links: Vec<Links>,
}

/// The procedures of some clauses, and the places of their predicates among them.
#[derive(Drop)]
pub(crate) struct Filed {
    pub places: IndexSet<Pred>,
    pub procedures: Vec<Procedure>,
}

/// Whether one more than a count fits 32 bits. A count that doesn't is refused as memory is.
fn room_for_one(count: usize) -> Result<(), AllocError>
    ensures { OnOk result (count + 1 < 2 ^ 32) }
{
    if count < 0xFFFF_FFFE {
        Ok(())
    } else {
        Err(AllocError)
    }
}

/// The predicate of the head of a clause.
fn head_predicate(alloc: Global, head: &Term) -> Result<Pred, AllocError>
    requires { IsTrue (is_clause_head (seen head.now)) }
    ensures name { IfOk result (λ p. p.name ≡ name_of (seen head.now)) }
    ensures arity { IfOk result (λ p. p.arity ≡ arity_of (seen head.now)) }
{
    match head {
        Term::Atom(name) => Ok(Pred {
            name: name.copy_of(alloc)?,
            arity: 0,
        }),
        Term::Cmp(name, args) => Ok(Pred {
            name: name.copy_of(alloc)?,
            arity: args.as_slice().len() as u8,
        }),
        Term::Var(_) => unreachable!(),
        Term::Int(_) => unreachable!(),
    }
}

/// Puts a code behind those of its predicate. After a refusal the procedures are of no use.
fn file_code(alloc: Global, filed: &mut Filed, pred: Pred, code: Code) -> Result<(), AllocError>
    requires places { filed.old.places.keys ≡ predicates_of filed.old.procedures.items }
    requires few { AreFew (procedures_seen filed.old.procedures.items) }
    ensures places { OnOk result
        (filed.new.places.keys ≡ predicates_of filed.new.procedures.items) }
    ensures filed { OnOk result (procedures_seen filed.new.procedures.items
        ≡ with_code (procedures_seen filed.old.procedures.items) pred code) }
    ensures few { OnOk result (AreFew (procedures_seen filed.new.procedures.items)) }
{
    match filed.places.get_index_of(&pred) {
        Some(place) => {
            let codes = &mut filed.procedures[place].codes;
            room_for_one(codes.len())?;
            codes.push(code)?;
        }
        None => {
            room_for_one(filed.procedures.len())?;
            filed.places.insert(pred.copy_of(alloc)?)?;
            let mut first = Vec::new(alloc);
            first.push(code)?;
            filed.procedures.push(Procedure { pred, codes: first })?;
        }
    }
    Ok(())
}

/// The procedures of clauses, each with the codes of its clauses in order. It takes no more
/// than 2^32 procedures, nor clauses of one.
pub(crate) fn file_clauses(alloc: Global, clauses: &[Clause]) -> Result<Filed, AllocError>
    ensures places { IfOk result (λ f. f.places.keys ≡ predicates_of f.procedures.items) }
    ensures filed { IfOk result (λ f.
        AreFiled (clauses_seen clauses.now) (procedures_seen f.procedures.items)) }
    ensures few { IfOk result (λ f. AreFew (procedures_seen f.procedures.items)) }
{
    let mut filed = Filed {
        places: IndexSet::new(alloc),
        procedures: Vec::new(alloc),
    };
    for clause in clauses {
        let pred = head_predicate(alloc, &clause.head)?;
        let code = compile_clause(alloc, clause)?;
        file_code(alloc, &mut filed, pred, code)?;
    }
    Ok(filed)
}
