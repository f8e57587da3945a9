//! Operations that change lists, carried out on the lists of all declarations.
ghost use Rattle.std.specs.Prelude.{◌≡◌, ◌<◌, ◌&&◌, [], true, IsSome, IsTrue, IfOk, OnErr, Some, length, List, nat_lt, if◌then◌else◌};
ghost use Rattle.ml_list_desk.specs.inside.ListDesks.{asks_change, IsCarriedOut};
ghost use Rattle.ml_list_desk.specs.inside.Standing.{are_cursors_within, decls_of};
ghost use Rattle.ml_list_desk.specs.declared.list_cursor.ListCursor.{ListCursor};
ghost use Rattle.ml_list_desk.specs.declared.outcome.Outcome.TheVariants as outcome;
ghost use Rattle.ml_search.specs.Db.{head_of, is_stored_clause, is_tuple};
ghost use Rattle.ml_search.specs.Limits.{max_changes};
ghost use Rattle.ml_search.specs.Operations.{asserta, assertz, declaration_for, delete, delete_at, insert, is_valid_after, Log};
ghost use Rattle.ml_search.specs.Program.{arity_of, holds_of, is_clause_list, is_relation, name_of, place_of};
ghost use Rattle.ml_search.specs.Seen.{operation_seen};
ghost use Rattle.ml_term.specs.Seen.{seen};
ghost use Rattle.ml_term.specs.declared.declaration.Decl.{Decl};

use crate::changes::{assert_at, delete_numbered, delete_tuple, insert_tuple, is_full};
use crate::list_cursor::ListCursor;
use crate::outcome::Outcome;
use crate::plain_list::PlainList;
use ml_search::{Decls, Op};
use ml_term::{Name, Pred, Term};
use std::alloc::{AllocError, Global};

// The predicate of a term, by its name and its number of arguments; of a term that has none, a
// predicate without a name.
fn pred_of(alloc: Global, t: &Term) -> Result<Pred, AllocError>
    ensures name { IfOk result (λ pred. pred.name ≡ name_of (seen t.now)) }
    ensures arity { IfOk result (λ pred. pred.arity ≡ arity_of (seen t.now)) }
{
    match t {
        Term::Var(_) => unnamed(alloc),
        Term::Int(_) => unnamed(alloc),
        Term::Atom(f) => Ok(Pred {
            name: f.copy_of(alloc)?,
            arity: 0,
        }),
        Term::Cmp(f, ts) => Ok(Pred {
            name: f.copy_of(alloc)?,
            arity: ts.as_slice().len() as u8,
        }),
    }
}

// The predicate without a name and without arguments.
fn unnamed(alloc: Global) -> Result<Pred, AllocError>
    ensures name { IfOk result (λ pred. pred.name ≡ []) }
    ensures arity { IfOk result (λ pred. pred.arity ≡ 0) }
{
    Ok(Pred {
        name: Name::new(alloc, b"")?,
        arity: 0,
    })
}

// The place of the list of a head's predicate, from 0.
fn list_of(alloc: Global, decls: &Decls, head: &Term) -> Result<usize, AllocError>
    requires { IsSome (place_of decls.now (name_of (seen head.now)) (arity_of (seen head.now))) }
    ensures place { IfOk result (λ d.
        place_of decls.now (name_of (seen head.now)) (arity_of (seen head.now)) ≡ Some d) }
    ensures within { IfOk result (λ d. d < length decls.now) }
{
    let pred = pred_of(alloc, head)?;
    match decls.place_of(&pred) {
        Some(d) => Ok(d),
        None => unreachable!(),
    }
}

// The head of a clause's term, and of other terms the term itself.
fn head_of(t: &Term) -> &Term
    ensures { seen result.now ≡ head_of (seen t.now) }
{
    match t {
        Term::Cmp(_, parts) if parts.as_slice().len() == 2 => &parts.as_slice()[0],
        _ => t,
    }
}

// Puts a tuple into the list of its predicate.
fn insert_into(
    alloc: Global,
    decls: &Decls,
    lists: &mut [PlainList],
    changes: u32,
    t: &Term,
) -> Result<Outcome, AllocError>
    requires decls { decls_of lists.old ≡ decls.now }
    requires valid { IsTrue (holds_of (λ q. is_relation q && is_tuple q (seen t.now))
        (declaration_for decls.now (seen t.now))) }
    ensures ok { IfOk result (λ outcome. (cursors : List ListCursor) →
        are_cursors_within lists.old cursors ≡ true →
        IsCarriedOut decls.now (insert (seen t.now)) lists.old lists.new cursors changes outcome) }
    ensures err { OnErr result (lists.new ≡ lists.old) }
{
    let d = list_of(alloc, decls, t)?;
    let list = &mut lists[d];
    let outcome = insert_tuple(alloc, list, changes, t)?;
    Ok(outcome)
}

// Takes a tuple out of the list of its predicate.
fn delete_from(
    alloc: Global,
    decls: &Decls,
    lists: &mut [PlainList],
    changes: u32,
    t: &Term,
) -> Result<Outcome, AllocError>
    requires decls { decls_of lists.old ≡ decls.now }
    requires valid { IsTrue (holds_of (λ q. is_relation q && is_tuple q (seen t.now))
        (declaration_for decls.now (seen t.now))) }
    ensures ok { IfOk result (λ outcome. (cursors : List ListCursor) →
        are_cursors_within lists.old cursors ≡ true →
        IsCarriedOut decls.now (delete (seen t.now)) lists.old lists.new cursors changes outcome) }
    ensures err { OnErr result (lists.new ≡ lists.old) }
{
    let d = list_of(alloc, decls, t)?;
    let list = &mut lists[d];
    let outcome = delete_tuple(list, changes, t);
    Ok(outcome)
}

// Puts a clause behind all others of its predicate.
fn assert_last(
    alloc: Global,
    decls: &Decls,
    lists: &mut [PlainList],
    changes: u32,
    t: &Term,
) -> Result<Outcome, AllocError>
    requires decls { decls_of lists.old ≡ decls.now }
    requires valid { IsTrue (holds_of (λ q. is_clause_list q && is_stored_clause q (seen t.now))
        (declaration_for decls.now (head_of (seen t.now)))) }
    ensures ok { IfOk result (λ outcome. (cursors : List ListCursor) →
        are_cursors_within lists.old cursors ≡ true →
        IsCarriedOut decls.now (assertz (seen t.now)) lists.old lists.new cursors changes outcome) }
    ensures err { OnErr result (lists.new ≡ lists.old) }
{
    let head = head_of(t);
    let d = list_of(alloc, decls, head)?;
    let list = &mut lists[d];
    let at = list.len();
    let outcome = assert_at(alloc, list, changes, t, at)?;
    Ok(outcome)
}

// Puts a clause before all others of its predicate.
fn assert_first(
    alloc: Global,
    decls: &Decls,
    lists: &mut [PlainList],
    changes: u32,
    t: &Term,
) -> Result<Outcome, AllocError>
    requires decls { decls_of lists.old ≡ decls.now }
    requires valid { IsTrue (holds_of (λ q. is_clause_list q && is_stored_clause q (seen t.now))
        (declaration_for decls.now (head_of (seen t.now)))) }
    ensures ok { IfOk result (λ outcome. (cursors : List ListCursor) →
        are_cursors_within lists.old cursors ≡ true →
        IsCarriedOut decls.now (asserta (seen t.now)) lists.old lists.new cursors changes outcome) }
    ensures err { OnErr result (lists.new ≡ lists.old) }
{
    let head = head_of(t);
    let d = list_of(alloc, decls, head)?;
    let list = &mut lists[d];
    let outcome = assert_at(alloc, list, changes, t, 0)?;
    Ok(outcome)
}

// Takes out the clause that a cursor gave with a number. It takes no memory.
fn delete_given(
    lists: &mut [PlainList],
    cursors: &[ListCursor],
    changes: u32,
    c: u32,
    i: u32,
) -> Outcome
    requires cursors { are_cursors_within lists.old cursors.now ≡ true }
    ensures { (decls : List Decl) →
        IsCarriedOut decls (delete_at c i) lists.old lists.new cursors.now changes result }
{
    let Some(cursor) = cursors.get(c as usize) else {
        return vain(changes);
    };
    let Some(number) = cursor.members.as_slice().get(i as usize) else {
        return vain(changes);
    };
    let list = &mut lists[cursor.list as usize];
    delete_numbered(list, changes, *number)
}

// What comes of a deletion of what no cursor has.
fn vain(changes: u32) -> Outcome
    ensures { result ≡ (if nat_lt changes max_changes then outcome.Absent else outcome.Full) }
{
    if is_full(changes) {
        Outcome::Full
    } else {
        Outcome::Absent
    }
}

/// Carries out an operation that asks for a change. After a refusal the lists are as before.
pub(crate) fn change(
    alloc: Global,
    decls: &Decls,
    lists: &mut [PlainList],
    cursors: &[ListCursor],
    changes: u32,
    op: &Op,
) -> Result<Outcome, AllocError>
    requires decls { decls_of lists.old ≡ decls.now }
    requires cursors { are_cursors_within lists.old cursors.now ≡ true }
    requires valid { (log : Log) × IsTrue (is_valid_after decls.now log (operation_seen op.now)) }
    requires change { IsTrue (asks_change (operation_seen op.now)) }
    ensures ok { IfOk result (IsCarriedOut decls.now (operation_seen op.now) lists.old lists.new
        cursors.now changes) }
    ensures err { OnErr result (lists.new ≡ lists.old) }
{
    match op {
        Op::Insert(t) => insert_into(alloc, decls, lists, changes, t),
        Op::Delete(t) => delete_from(alloc, decls, lists, changes, t),
        Op::Assertz(t) => assert_last(alloc, decls, lists, changes, t),
        Op::Asserta(t) => assert_first(alloc, decls, lists, changes, t),
        Op::DeleteAt(c, i) => Ok(delete_given(lists, cursors, changes, *c, *i)),
        Op::Open(_, _) => unreachable!(),
        Op::Next(_, _) => unreachable!(),
    }
}
