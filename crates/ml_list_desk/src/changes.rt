//! Changes of one list.
ghost use Rattle.std.specs.Prelude.{◌≡◌, ◌<◌, ◌≤◌, ◌++◌, ◌∷◌, [], true, not, nat_lt, is_some, IsTrue, IfOk, OnErr, length};
ghost use Rattle.std.specs.List.{insert};
ghost use Rattle.ml_list_desk.specs.inside.ItemList.{item_with};
ghost use Rattle.ml_list_desk.specs.Items.{id_seen};
ghost use Rattle.ml_list_desk.specs.inside.Outcomes.{IsChange, own_id};
ghost use Rattle.ml_list_desk.specs.declared.list_item.Place.TheVariants as place;
ghost use Rattle.ml_list_desk.specs.declared.outcome.Outcome.TheVariants as outcome;
ghost use Rattle.ml_search.specs.Changes.{has_term, insert_by_key, without_id, without_term};
ghost use Rattle.ml_search.specs.Db.{is_stored_clause, is_tuple, with_id};
ghost use Rattle.ml_search.specs.Limits.{max_changes};
ghost use Rattle.ml_list_desk.specs.Items.{items_seen};
ghost use Rattle.ml_term.specs.Seen.{seen};
ghost use Rattle.ml_term.specs.declared.declaration.Kind.TheVariants.{Clauses, Relation};

use crate::list_item::{ListItem, Place};
use crate::outcome::Outcome;
use crate::plain_list::PlainList;
use ml_search::MAX_CHANGES;
use ml_term::Term;
use std::alloc::{AllocError, Global};

/// Whether a session that made so many changes may make no more.
pub(crate) fn is_full(changes: u32) -> bool
    ensures { result ≡ not (nat_lt changes max_changes) }
{
    changes as usize >= MAX_CHANGES
}

// A session's own item of a term that is copied, as the change with this number puts it.
fn own_item(alloc: Global, changes: u32, t: &Term) -> Result<ListItem, AllocError>
    ensures { IfOk result (λ item. item ≡ record {
      place = place.Mine;
      change = changes;
      term = t.now;
    }) }
{
    Ok(ListItem {
        place: Place::Mine,
        change: changes,
        term: t.copy_of(alloc)?,
    })
}

/// Puts a tuple at its key's place, unless it is there or too many changes were made.
pub(crate) fn insert_tuple(
    alloc: Global,
    list: &mut PlainList,
    changes: u32,
    t: &Term,
) -> Result<Outcome, AllocError>
    requires relation { list.old.decl.kind ≡ Relation }
    requires tuple { IsTrue (is_tuple list.old.decl (seen t.now)) }
    ensures ok { IfOk result (IsChange (nat_lt changes max_changes)
        (not (has_term (seen t.now) (items_seen list.old.items))) outcome.Added outcome.Present
        (insert_by_key list.old.decl.keys (record { id = own_id changes; term = seen t.now }))
        list.old list.new) }
    ensures err { OnErr result (list.new ≡ list.old) }
{
    if is_full(changes) {
        return Ok(Outcome::Full);
    }
    match list.find(t) {
        Ok(_) => Ok(Outcome::Present),
        Err(at) => {
            let item = own_item(alloc, changes, t)?;
            list.insert(at, item)?;
            Ok(Outcome::Added)
        }
    }
}

/// Takes a tuple out, if it is there and not too many changes were made. It takes no memory.
pub(crate) fn delete_tuple(list: &mut PlainList, changes: u32, t: &Term) -> Outcome
    requires relation { list.old.decl.kind ≡ Relation }
    requires tuple { IsTrue (is_tuple list.old.decl (seen t.now)) }
    ensures { IsChange (nat_lt changes max_changes)
        (has_term (seen t.now) (items_seen list.old.items)) outcome.Removed outcome.Absent
        (without_term (seen t.now)) list.old list.new result }
{
    if is_full(changes) {
        return Outcome::Full;
    }
    match list.find(t) {
        Ok(at) => {
            list.remove(at);
            Outcome::Removed
        }
        Err(_) => Outcome::Absent,
    }
}

/// Puts a clause at a place, unless too many changes were made.
pub(crate) fn assert_at(
    alloc: Global,
    list: &mut PlainList,
    changes: u32,
    t: &Term,
    at: usize,
) -> Result<Outcome, AllocError>
    requires clauses { list.old.decl.kind ≡ Clauses }
    requires clause { IsTrue (is_stored_clause list.old.decl (seen t.now)) }
    requires within { at ≤ length list.old.items }
    ensures ok { IfOk result (IsChange (nat_lt changes max_changes) true outcome.Added
        outcome.Absent (λ is. insert is at (record { id = own_id changes; term = seen t.now }))
        list.old list.new) }
    ensures err { OnErr result (list.new ≡ list.old) }
{
    if is_full(changes) {
        return Ok(Outcome::Full);
    }
    let item = own_item(alloc, changes, t)?;
    list.insert(at, item)?;
    Ok(Outcome::Added)
}

/// Takes out the clause with the id of the item with a number, if it is there and not too many
/// changes were made. It takes no memory.
pub(crate) fn delete_numbered(list: &mut PlainList, changes: u32, number: usize) -> Outcome
    requires { number < length list.old.pool }
    ensures { let item = item_with list.old.pool number in
        let id = id_seen item.place item.change in
        IsChange (nat_lt changes max_changes) (is_some (with_id id (items_seen list.old.items)))
        outcome.Removed outcome.Absent (without_id id) list.old list.new result }
{
    if is_full(changes) {
        return Outcome::Full;
    }
    let item = list.item(number);
    let (place, change) = (item.place, item.change);
    if list.remove_id(place, change) {
        Outcome::Removed
    } else {
        Outcome::Absent
    }
}
