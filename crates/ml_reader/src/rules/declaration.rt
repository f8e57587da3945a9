//! What a term declares.
ghost use Rattle.std.specs.Prelude.{◌≡◌, ◌⊎◌, IfOk, MatchOption};
ghost use Rattle.std.specs.Option.{option_map};
ghost use Rattle.ml_reader.specs.Declarations.{Declares};
ghost use Rattle.ml_reader.specs.inside.rules.DeclarationSteps.{cell_parts, if_declarable};
ghost use Rattle.ml_reader.specs.inside.rules.DeclarationSteps.{kind_by_name, pred_by_terms};
ghost use Rattle.ml_reader.specs.inside.rules.DeclarationSteps.{numbers as numbers_of};
ghost use Rattle.ml_reader.specs.inside.rules.DeclarationSteps.{without_keys, predicate};
ghost use Rattle.ml_reader.specs.inside.rules.DeclarationSteps.{declaration_parts};
ghost use Rattle.ml_reader.specs.inside.rules.DeclarationSteps.{parts_of_declaration, byte_number};
ghost use Rattle.ml_reader.specs.inside.rules.DeclarationSteps.{small_integer, with_keys};
ghost use Rattle.ml_search.specs.ListTerms.{is_nil};
ghost use Rattle.ml_term.specs.Seen.{all_seen, seen};
ghost use Rattle.ml_term.specs.Tree.{compound, trees_of};
ghost use Rattle.ml_term.specs.declared.declaration.Decl.{Decl};

use crate::parser::operators::is;
use crate::rules::form::{pair, single};
use ml_search::is_reserved;
use ml_term::{Decl, Keys, Kind, MAX_ARGUMENTS, Name, Pred, Term, are_keys};
use std::alloc::{AllocError, Global};

// The kind of a name.
fn kind_by_name(name: &Name) -> Option<Kind>
    ensures { result ≡ kind_by_name name.now }
{
    if is(name, b"relation") {
        Some(Kind::Relation)
    } else if is(name, b"clauses") {
        Some(Kind::Clauses)
    } else {
        None
    }
}

// A number from 0 to 255.
fn byte_number(z: i64) -> Option<u8>
    ensures { result ≡ byte_number z }
{
    if 0 <= z && z <= MAX_ARGUMENTS as i64 {
        Some(z as u8)
    } else {
        None
    }
}

// An integer from 0 to 255.
fn small_integer(t: &Term) -> Option<u8>
    ensures { result ≡ small_integer (seen t.now) }
{
    match t {
        Term::Int(z) => byte_number(*z),
        Term::Var(_) => None,
        Term::Atom(_) => None,
        Term::Cmp(_, _) => None,
    }
}

// The predicate of a name and an arity.
fn pred_by_terms(alloc: Global, t: &Term, u: &Term) -> Result<Option<Pred>, AllocError>
    ensures { IfOk result (λ pred. pred ≡ pred_by_terms (seen t.now) (seen u.now)) }
{
    match t {
        Term::Atom(f) => match small_integer(u) {
            None => Ok(None),
            Some(arity) => Ok(Some(Pred {
                name: f.copy_of(alloc)?,
                arity,
            })),
        },
        Term::Var(_) => Ok(None),
        Term::Int(_) => Ok(None),
        Term::Cmp(_, _) => Ok(None),
    }
}

// The predicate that `NAME/ARITY` names.
fn predicate(alloc: Global, t: &Term) -> Result<Option<Pred>, AllocError>
    ensures { IfOk result (λ pred. pred ≡ predicate (seen t.now)) }
{
    match t {
        Term::Cmp(f, ts) => match pair(ts.as_slice()) {
            Some((t, u)) => {
                if is(f, b"/") {
                    pred_by_terms(alloc, t, u)
                } else {
                    Ok(None)
                }
            }
            None => Ok(None),
        },
        Term::Var(_) => Ok(None),
        Term::Int(_) => Ok(None),
        Term::Atom(_) => Ok(None),
    }
}

// The head of a list's cell, and what follows it.
fn cell_parts(t: &Term) -> Option<(&Term, &Term)>
    ensures { option_map (λ r. (seen r.0.now, seen r.1.now)) result ≡ cell_parts (seen t.now) }
{
    match t {
        Term::Cmp(f, ts) => match pair(ts.as_slice()) {
            Some((t, u)) => { if is(f, b".") { Some((t, u)) } else { None } }
            None => None,
        },
        Term::Var(_) => None,
        Term::Int(_) => None,
        Term::Atom(_) => None,
    }
}

// Whether a term is `[]`.
fn is_nil(t: &Term) -> bool
    ensures { result ≡ is_nil (seen t.now) }
{
    match t {
        Term::Atom(f) => is(f, b"[]"),
        Term::Var(_) => false,
        Term::Int(_) => false,
        Term::Cmp(_, _) => false,
    }
}

// The numbers of a list, each at most 255.
fn numbers(alloc: Global, t: &Term) -> Result<Option<Keys>, AllocError>
    ensures { IfOk result (λ keys. keys ≡ numbers_of (seen t.now)) }
{
    let mut numbers = Vec::new(alloc);
    let mut rest = t;
    while let Some((first, others)) = cell_parts(rest) {
        match small_integer(first) {
            None => return Ok(None),
            Some(k) => numbers.push(k)?,
        }
        rest = others;
    }
    if is_nil(rest) {
        Ok(Some(Keys::from_vec(numbers)))
    } else {
        Ok(None)
    }
}

// The declaration of a predicate with these keys, where they are keys and the predicate may be
// declared.
fn if_declarable(pred: Pred, kind: Kind, keys: Keys) -> Option<Decl>
    ensures { option_map parts_of_declaration result ≡ if_declarable
        (record { pred = pred; kind = kind; keys = keys }) }
{
    if are_keys(pred.arity, keys.as_slice()) && !is_reserved(&pred.name, usize::from(pred.arity)) {
        Some(Decl::new(pred, kind, keys))
    } else {
        None
    }
}

// `relation(NAME/ARITY)` or `clauses(NAME/ARITY)`.
fn without_keys(alloc: Global, kind: Kind, t: &Term) -> Result<Option<Decl>, AllocError>
    ensures { IfOk result (λ decl.
        option_map parts_of_declaration decl ≡ without_keys kind (predicate (seen t.now))) }
{
    match predicate(alloc, t)? {
        None => Ok(None),
        Some(pred) => {
            let keys = Keys::default_of(alloc, pred.arity)?;
            Ok(if_declarable(pred, kind, keys))
        }
    }
}

// `relation(NAME/ARITY, KEYS)` or `clauses(NAME/ARITY, KEYS)`.
fn with_keys(alloc: Global, kind: Kind, t: &Term, u: &Term) -> Result<Option<Decl>, AllocError>
    ensures { IfOk result (λ decl.
        option_map parts_of_declaration decl ≡ with_keys kind (predicate (seen t.now))
        (numbers_of (seen u.now))) }
{
    match predicate(alloc, t)? {
        None => Ok(None),
        Some(pred) => match numbers(alloc, u)? {
            None => Ok(None),
            Some(keys) => Ok(if_declarable(pred, kind, keys)),
        },
    }
}

// What a compound's arguments declare.
fn declaration_of(alloc: Global, f: &Name, ts: &[Term]) -> Result<Option<Decl>, AllocError>
    ensures { IfOk result (λ decl.
        option_map parts_of_declaration decl ≡ declaration_parts
        (compound f.now (trees_of (all_seen ts.now)))) }
{
    match kind_by_name(f) {
        None => Ok(None),
        Some(kind) => match single(ts) {
            Some(t) => without_keys(alloc, kind, t),
            None => match pair(ts) {
                Some((t, u)) => with_keys(alloc, kind, t, u),
                None => Ok(None),
            },
        },
    }
}

/// What the T of a clause `:- T` declares; none where it declares nothing, or what may not be
/// declared.
pub fn declaration(alloc: Global, t: &Term) -> Result<Option<Decl>, AllocError>
    ensures said { IfOk result (λ decl.
        option_map parts_of_declaration decl ≡ declaration_parts (seen t.now)) }
    ensures declared { IfOk result (λ decl.
        MatchOption decl ((d : Decl) → Declares (seen t.now) d → ⊥) (Declares (seen t.now))) }
{
    match t {
        Term::Cmp(f, ts) => declaration_of(alloc, f, ts.as_slice()),
        Term::Var(_) => Ok(None),
        Term::Int(_) => Ok(None),
        Term::Atom(_) => Ok(None),
    }
}
