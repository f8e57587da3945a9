//! The rules that clauses are.
ghost use Rattle.std.specs.Prelude.{◌≡◌, ◌<◌, ◌^◌, Err, IfOk, IsTrue, OnOk, List, length, map};
ghost use Rattle.std.specs.List.{AllByRecursion};
ghost use Rattle.ml_reader.specs.Forms.{form};
ghost use Rattle.ml_reader.specs.Rules.{AreRules, Declare, RulesGoWrong, part};
ghost use Rattle.ml_reader.specs.inside.rules.RulesSteps.{Becomes, GoesIn, IsWrong, IsWrongUnder};
ghost use Rattle.ml_reader.specs.Seen.{read_seen};
ghost use Rattle.ml_reader.specs.declared.fault.ReadFault.{ReadFault};
ghost use Rattle.ml_reader.specs.Texts.{IsWellRead};
ghost use Rattle.ml_reader.specs.declared.fault.ReadStop.TheVariants as read_stop;
ghost use Rattle.ml_search.specs.ClauseSeen.{clauses_seen};
ghost use Rattle.ml_search.specs.ItemsSeen.{items_seen};
ghost use Rattle.ml_search.specs.Limits.{max_declarations};
ghost use Rattle.ml_search.specs.Loading.{are_items};
ghost use Rattle.ml_search.specs.ProgramSeen.{program_seen};
ghost use Rattle.ml_search.specs.WellFormed.{are_undeclared};
ghost use Rattle.ml_term.specs.Seen.{seen};

use crate::fault::{ReadFault, ReadKind, ReadStop};
use crate::parser::lexeme::Read;
use crate::rules::Rules;
use crate::rules::declaration::declaration;
use crate::rules::form::directive_of;
use crate::rules::items::Items;
use crate::rules::part::{Part, part_of};
use ml_search::{Clause, Clauses, Decls, Program};
use ml_term::Term;
use std::alloc::Global;

// The stop at a fault.
fn stop_at(kind: ReadKind, place: usize) -> ReadStop
    ensures { result ≡ read_stop.Fault (record { place = place; kind = kind }) }
{
    ReadStop::Fault(ReadFault { place, kind })
}

// Puts what a clause declares behind the declarations of those before it, if it is a clause `:- T`.
fn declare(alloc: Global, decls: &mut Decls, read: &Read) -> Result<(), ReadStop>
    requires { length decls.old < max_declarations }
    ensures ok { OnOk result (Becomes (read_seen read.now) decls.old decls.new) }
    ensures fault { (f : ReadFault) → result ≡ Err (read_stop.Fault f)
        → IsWrong (read_seen read.now) decls.old f }
{
    match directive_of(&read.term) {
        None => Ok(()),
        Some(t) => match declaration(alloc, t)? {
            None => Err(stop_at(ReadKind::BadDeclaration, read.place)),
            Some(decl) => match decls.place_of(&decl.pred) {
                None => {
                    decls.add(decl)?;
                    Ok(())
                }
                Some(_) => Err(stop_at(ReadKind::TwiceDeclared, read.place)),
            },
        },
    }
}

// The declarations of some clauses.
fn declarations(alloc: Global, reads: &[Read]) -> Result<Decls, ReadStop>
    requires { length reads.now < 2 ^ 32 }
    ensures declare { IfOk result (Declare (map read_seen reads.now)) }
    ensures fault { (f : ReadFault) → result ≡ Err (read_stop.Fault f)
        → RulesGoWrong (map read_seen reads.now) f }
{
    let mut decls = Decls::new(alloc);
    for read in reads {
        declare(alloc, &mut decls, read)?;
    }
    Ok(decls)
}

// Puts a clause behind those of the program, or behind the items, where it belongs there; a clause
// `:- T` belongs nowhere.
fn sort_in(
    alloc: Global,
    decls: &Decls,
    read: Read,
    clauses: &mut Vec<Clause>,
    items: &mut Vec<(u32, Term)>,
) -> Result<(), ReadStop>
    requires { IsWellRead (read_seen read) }
    ensures ok { OnOk result (GoesIn (part decls.now (form (seen read.term)))
        (clauses_seen clauses.old.items) (clauses_seen clauses.new.items)
        (items_seen items.old.items) (items_seen items.new.items)) }
    ensures fault { (f : ReadFault) → result ≡ Err (read_stop.Fault f)
        → IsWrongUnder decls.now (read_seen read) f }
{
    let Read {
        term,
        names: _names,
        place,
    } = read;
    match part_of(alloc, decls, term)? {
        None => Ok(()),
        Some(part) => match part {
            Part::Program(clause) => {
                clauses.push(clause)?;
                Ok(())
            }
            Part::Item(k, term) => {
                items.push((k, term))?;
                Ok(())
            }
            Part::Wrong(kind) => Err(stop_at(kind, place)),
        },
    }
}

// Rules from their parts.
fn rules_from(decls: Decls, clauses: Vec<Clause>, items: Vec<(u32, Term)>) -> Rules
    requires clauses { IsTrue (are_undeclared decls (clauses_seen clauses.items)) }
    requires items { IsTrue (are_items decls (items_seen items.items)) }
    ensures program { program_seen result.program ≡ record {
      decls = decls;
      clauses =
          clauses_seen clauses.items;
    } }
    ensures items { items_seen result.items ≡ items_seen items.items }
{
    let program = Program::new(decls, Clauses::from_vec(clauses));
    Rules {
        program,
        items: Items::from_vec(items),
    }
}

// The rules that clauses are under their declarations.
fn sort_clauses(alloc: Global, decls: Decls, reads: Vec<Read>) -> Result<Rules, ReadStop>
    requires well_read { AllByRecursion IsWellRead (map read_seen reads.items) }
    requires declared { Declare (map read_seen reads.items) decls }
    ensures rules { IfOk result (λ r.
        AreRules (map read_seen reads.items) (program_seen r.program) (items_seen r.items)) }
    ensures fault { (f : ReadFault) → result ≡ Err (read_stop.Fault f)
        → RulesGoWrong (map read_seen reads.items) f }
{
    let mut clauses = Vec::new(alloc);
    let mut items = Vec::new(alloc);
    for read in reads {
        sort_in(alloc, &decls, read, &mut clauses, &mut items)?;
    }
    Ok(rules_from(decls, clauses, items))
}

/// The rules that clauses are.
pub fn rules_of(alloc: Global, reads: Vec<Read>) -> Result<Rules, ReadStop>
    requires well_read { AllByRecursion IsWellRead (map read_seen reads.items) }
    requires few { length reads.items < 2 ^ 32 }
    ensures rules { IfOk result (λ r.
        AreRules (map read_seen reads.items) (program_seen r.program) (items_seen r.items)) }
    ensures fault { (f : ReadFault) → result ≡ Err (read_stop.Fault f)
        → RulesGoWrong (map read_seen reads.items) f }
{
    let decls = declarations(alloc, reads.as_slice())?;
    sort_clauses(alloc, decls, reads)
}
