//! The items of a list taken out.
ghost use Rattle.std.specs.Prelude.{◌≡◌, ◌<◌, ◌≤◌, [], true, map, slice_set, IfOk, length, vec_capacity};
ghost use Rattle.ml_list_desk.specs.inside.ItemList.{AreDifferent, are_within, item_with, items_with, no_item};

use crate::list_item::{ListItem, ListItems, Place};
use crate::plain_list::PlainList;
use ml_term::{Term, Terms};
use std::alloc::{AllocError, Global};
use std::mem;

// Takes an item out, and leaves another one in its place.
fn take_out(pool: &mut Vec<ListItem>, number: usize) -> ListItem
    requires { number < length pool.old.items }
    ensures item { result ≡ item_with pool.old.items number }
    ensures rest { pool.new.items ≡ slice_set pool.old.items number no_item }
{
    let other = ListItem {
        place: Place::Mine,
        change: 0,
        term: Term::Int(0),
    };
    let item = &mut pool[number];
    mem::replace(item, other)
}

// The terms of the items with some numbers, put into a vector that has room for them.
fn terms_out(pool: Vec<ListItem>, numbers: &[usize], room: Vec<Term>) -> Vec<Term>
    requires within { are_within pool.items numbers.now ≡ true }
    requires different { AreDifferent numbers.now }
    requires empty { room.items ≡ [] }
    requires roomy { length numbers.now ≤ vec_capacity room }
    ensures { result.items ≡ map (λ i. i.term) (items_with pool.items numbers.now) }
{
    let mut pool = pool;
    let mut terms = room;
    for at in 0..numbers.len() {
        let item = take_out(&mut pool, numbers[at]);
        let ListItem {
            place: _,
            change: _,
            term,
        } = item;
        terms.push_reserved(term);
    }
    terms
}

// The items with some numbers.
fn items_out(
    alloc: Global,
    pool: Vec<ListItem>,
    numbers: &[usize],
) -> Result<Vec<ListItem>, AllocError>
    requires within { are_within pool.items numbers.now ≡ true }
    requires different { AreDifferent numbers.now }
    ensures { IfOk result (λ items. items.items ≡ items_with pool.items numbers.now) }
{
    let mut pool = pool;
    let mut items = Vec::new(alloc);
    for at in 0..numbers.len() {
        let item = take_out(&mut pool, numbers[at]);
        items.push(item)?;
    }
    Ok(items)
}

impl PlainList {
    /// The terms in their order. It takes no memory.
    pub fn into_terms(self) -> Terms
        ensures { result ≡ map (λ i. i.term) self.items }
    {
        let PlainList {
            decl: _,
            pool,
            numbers,
            room,
        } = self;
        Terms::from_vec(terms_out(pool, numbers.as_slice(), room))
    }

    /// The items in their order.
    pub fn into_items(self, alloc: Global) -> Result<ListItems, AllocError>
        ensures { IfOk result (λ items. items ≡ self.items) }
    {
        let PlainList {
            decl: _,
            pool,
            numbers,
            room: _,
        } = self;
        Ok(ListItems::from_vec(items_out(alloc, pool, numbers.as_slice())?))
    }
}
