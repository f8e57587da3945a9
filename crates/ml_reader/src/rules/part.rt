//! What a clause of rules is, under all declarations.
ghost use Rattle.std.specs.Prelude.{◌≡◌, ◌&&◌, ◌^◌, ◌<◌, IsTrue, IfOk, IfSome, IsSome, Some};
ghost use Rattle.std.specs.Prelude.{length};
ghost use Rattle.std.specs.Option.{option_map};
ghost use Rattle.ml_reader.specs.Forms.{fact, form, rule};
ghost use Rattle.ml_reader.specs.inside.rules.FormsSeen.{form_seen};
ghost use Rattle.ml_reader.specs.inside.rules.PartsSeen.{part_seen};
ghost use Rattle.ml_reader.specs.Rules.{fact_at, list_item, is_relation_at, part, place_for};
ghost use Rattle.ml_reader.specs.Rules.{rule_at, item_within_size};
ghost use Rattle.ml_search.specs.Bodies.{is_callable};
ghost use Rattle.ml_search.specs.Program.{clause_term, true_body};
ghost use Rattle.ml_search.specs.WellFormed.{is_clause, is_clause_head};
ghost use Rattle.ml_term.specs.Seen.{seen};
ghost use Rattle.ml_term.specs.Tree.{is_numbered};
ghost use Rattle.ml_term.specs.Valid.{is_valid};

use crate::fault::ReadKind;
use crate::parser::building::two_of;
use crate::rules::form::{Form, form_of};
use ml_search::{Clause, Decls, MAX_ITEM_BYTES, is_callable, is_clause_head};
use ml_term::{Kind, Name, Pred, Term, canonical_len_up_to, is_ground};
use std::alloc::{AllocError, Global};

/// What a clause is: it belongs to the program, it is an item of the declaration with a number, or
/// it is wrong.
#[derive(Drop)]
pub enum Part {
    Program(Clause),
    Item(u32, Term),
    Wrong(ReadKind),
}

// The head, and the place of its predicate's declaration. It takes no memory.
fn head_with_place(decls: &Decls, head: Term) -> (Term, Option<usize>)
    requires { IsTrue (is_clause_head (seen head)) }
    ensures head { result.0 ≡ head }
    ensures place { result.1 ≡ place_for decls.now (seen head) }
    ensures within { IfSome result.1 (λ k. k < length decls.now) }
{
    match head {
        Term::Atom(name) => {
            let pred = Pred { name, arity: 0 };
            let place = decls.place_of(&pred);
            (Term::Atom(pred.name), place)
        }
        Term::Cmp(name, args) => {
            let arity = args.as_slice().len() as u8;
            let pred = Pred { name, arity };
            let place = decls.place_of(&pred);
            (Term::Cmp(pred.name, args), place)
        }
        Term::Var(n) => (Term::Var(n), None),
        Term::Int(z) => (Term::Int(z), None),
    }
}

// Whether the declaration at a place is one of a relation.
fn is_relation(decls: &Decls, k: usize) -> bool
    requires { k < length decls.now }
    ensures { result ≡ is_relation_at decls.now k }
{
    decls.at(k).kind == Kind::Relation
}

// An item of the declaration at a place, unless it is too large.
fn item(decls: &Decls, k: usize, term: Term) -> Part
    requires { k < length decls.now }
    ensures { part_seen result ≡ item_within_size k (seen term) }
{
    let _below_max_declarations = decls.len();
    if canonical_len_up_to(&term, MAX_ITEM_BYTES) > MAX_ITEM_BYTES {
        Part::Wrong(ReadKind::ItemTooLarge)
    } else {
        Part::Item(k as u32, term)
    }
}

// The atom `true`.
fn true_atom(alloc: Global) -> Result<Term, AllocError>
    ensures { IfOk result (λ t. seen t ≡ true_body) }
{
    Ok(Term::Atom(Name::new(alloc, b"true")?))
}

// `:-(HEAD, BODY)`.
fn clause_of(alloc: Global, head: Term, body: Term) -> Result<Term, AllocError>
    ensures { IfOk result (λ t. seen t ≡ clause_term (seen head) (seen body)) }
{
    two_of(alloc, Name::new(alloc, b":-")?, head, body)
}

// What a fact is that is no clause of the program.
fn listed_fact(alloc: Global, decls: &Decls, k: usize, head: Term) -> Result<Part, AllocError>
    requires { k < length decls.now }
    ensures { IfOk result (λ p. part_seen p ≡ fact_at decls.now (Some k) (seen head)) }
{
    if is_relation(decls, k) {
        if is_ground(&head) {
            Ok(item(decls, k, head))
        } else {
            Ok(Part::Wrong(ReadKind::BadClause))
        }
    } else {
        let clause = clause_of(alloc, head, true_atom(alloc)?)?;
        Ok(item(decls, k, clause))
    }
}

// What a clause `HEAD :- BODY` is that is no clause of the program.
fn listed_rule(
    alloc: Global,
    decls: &Decls,
    k: usize,
    head: Term,
    body: Term,
) -> Result<Part, AllocError>
    requires { k < length decls.now }
    ensures { IfOk result (λ p. part_seen p ≡ rule_at decls.now (Some k) (seen head) (seen body)) }
{
    if is_relation(decls, k) {
        Ok(Part::Wrong(ReadKind::BadClause))
    } else {
        let clause = clause_of(alloc, head, body)?;
        Ok(item(decls, k, clause))
    }
}

// What a clause `HEAD` is.
fn fact_part(alloc: Global, decls: &Decls, head: Term) -> Result<Part, AllocError>
    requires valid { IsTrue (is_valid (seen head)) }
    requires numbered { IsTrue (is_numbered (seen head)) }
    ensures { IfOk result (λ p. Some (part_seen p) ≡ part decls.now (fact (seen head))) }
{
    if is_clause_head(&head) {
        let (head, place) = head_with_place(decls, head);
        match place {
            None => {
                let body = true_atom(alloc)?;
                Ok(Part::Program(Clause::new(head, body)))
            }
            Some(k) => listed_fact(alloc, decls, k, head),
        }
    } else {
        Ok(Part::Wrong(ReadKind::BadClause))
    }
}

// What a clause `HEAD :- BODY` is.
fn rule_part(alloc: Global, decls: &Decls, head: Term, body: Term) -> Result<Part, AllocError>
    requires valid { IsTrue (is_valid (clause_term (seen head) (seen body))) }
    requires numbered { IsTrue (is_numbered (clause_term (seen head) (seen body))) }
    ensures { IfOk result (λ p.
        Some (part_seen p) ≡ part decls.now (rule (seen head) (seen body))) }
{
    let may_stand = is_clause_head(&head) && is_callable(&body);
    if may_stand {
        let (head, place) = head_with_place(decls, head);
        match place {
            None => Ok(Part::Program(Clause::new(head, body))),
            Some(k) => listed_rule(alloc, decls, k, head, body),
        }
    } else {
        Ok(Part::Wrong(ReadKind::BadClause))
    }
}

/// What a clause is; none where it is a clause `:- T`.
pub fn part_of(alloc: Global, decls: &Decls, term: Term) -> Result<Option<Part>, AllocError>
    requires valid { IsTrue (is_valid (seen term)) }
    requires numbered { IsTrue (is_numbered (seen term)) }
    ensures { IfOk result (λ r. option_map part_seen r ≡ part decls.now (form (seen term))) }
{
    match form_of(term) {
        Form::Directive(_) => Ok(None),
        Form::Query(_) => Ok(Some(Part::Wrong(ReadKind::BadClause))),
        Form::Rule(head, body) => Ok(Some(rule_part(alloc, decls, head, body)?)),
        Form::Fact(head) => Ok(Some(fact_part(alloc, decls, head)?)),
    }
}
