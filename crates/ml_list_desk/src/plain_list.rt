//! The list of one declaration.
ghost use Rattle.std.specs.Prelude.{◌≡◌, ◌<◌, ◌≤◌, ◌++◌, ◌∷◌, [], IsTrue, IfOk, OnOk, OnErr, length, vec_capacity, vec_len};
ghost use Rattle.std.specs.List.{insert, remove};
ghost use Rattle.ml_list_desk.specs.inside.ItemList.{are_allowed, item_with};
ghost use Rattle.ml_list_desk.specs.Items.{item_seen, items_seen};
ghost use Rattle.ml_search.specs.Db.{is_allowed, rises};
ghost use Rattle.ml_term.specs.Seen.{seen};
ghost use Rattle.ml_term.specs.declared.declaration.Kind.TheVariants.{Relation};

mod halves;
mod meeting;
mod outlet;
mod removal;

use crate::list_item::ListItem;
use ml_term::{Decl, Term};
use std::alloc::{AllocError, Global};
use std::marker::Model;

/// The list of one declaration. An item that once stood in it keeps its number for good, so that
/// cursors may name it: the list and each cursor over it are numbers in their order.
#[derive(Drop)]
pub(crate) struct PlainList {
    decl: Decl,
    pool: Vec<ListItem>,
    numbers: Vec<usize>,
    room: Vec<Term>,
}

impl Model for PlainList {
    ghost use Rattle.std.specs.Coded.{codes};
    ghost use Rattle.std.specs.Prelude.{vec_capacity};
    ghost use Rattle.ml_list_desk.specs.inside.ItemList.{ItemList};
    ghost use Rattle.ml_list_desk.specs.contracts.list_item.ListItem as item;
    ghost use Rattle.ml_term.specs.contracts.declaration.Decl as declaration;

    ghost Value = { ItemList };

    ghost coded = { Prim.hlevel (codes, item.the_row.coded, declaration.the_row.coded) };

    ghost use Rattle.ml_list_desk.specs.inside.ItemList.{IsKept, items_with};

    ghost view = { λ l. record {
      decl = l.decl;
      items = items_with l.pool.items l.numbers.items;
      pool = l.pool.items;
    } };

    ghost invariant = { λ l. IsKept l.decl l.pool.items l.numbers.items l.room.items
        (vec_capacity l.room) };
}

impl PlainList {
    /// The list of a declaration with these items.
    pub fn new(alloc: Global, decl: Decl, items: Vec<ListItem>) -> Result<PlainList, AllocError>
        requires allowed { IsTrue (are_allowed decl items.items) }
        requires ordered { decl.kind ≡ Relation →
            IsTrue (rises decl.keys (items_seen items.items)) }
        ensures { IfOk result (λ list. list ≡ record {
          decl = decl;
          items = items.items;
          pool = items.items;
        }) }
    {
        let mut numbers = Vec::new(alloc);
        for n in 0..items.len() {
            numbers.push(n)?;
        }
        let room = Vec::with_capacity(alloc, items.len())?;
        Ok(PlainList {
            decl,
            pool: items,
            numbers,
            room,
        })
    }

    /// The declaration.
    pub fn decl(&self) -> &Decl
        ensures { result.now ≡ self.now.decl }
    {
        &self.decl
    }

    /// How many items it has.
    pub fn len(&self) -> usize
        ensures { result ≡ length self.now.items }
    {
        self.numbers.len()
    }

    /// The item with a number.
    pub fn item(&self, n: usize) -> &ListItem
        requires { n < length self.now.pool }
        ensures same { result.now ≡ item_with self.now.pool n }
        ensures allowed { IsTrue (is_allowed self.now.decl (seen result.now.term)) }
    {
        &self.pool[n]
    }

    /// Puts an item at a place. After a refusal the list is as before.
    pub fn insert(&mut self, at: usize, item: ListItem) -> Result<(), AllocError>
        requires within { at ≤ length self.old.items }
        requires allowed { IsTrue (is_allowed self.old.decl (seen item.term)) }
        requires ordered { self.old.decl.kind ≡ Relation → IsTrue (rises self.old.decl.keys
            (insert (items_seen self.old.items) at (item_seen item))) }
        ensures ok { OnOk result (self.new ≡ record {
          decl = self.old.decl;
          items = insert self.old.items at item;
          pool = self.old.pool ++ item ∷ [];
        }) }
        ensures err { OnErr result (self.new ≡ self.old) }
    {
        let count = self.numbers.len();
        self.numbers.reserve(1)?;
        self.room.reserve(count + 1)?;
        let number = self.pool.len();
        self.pool.push(item)?;
        put(&mut self.numbers, at, number);
        Ok(())
    }

    /// Takes out the item at a place. It takes no memory.
    pub fn remove(&mut self, at: usize)
        requires { at < length self.old.items }
        ensures { self.new ≡ record {
          decl = self.old.decl;
          items = remove self.old.items at;
          pool = self.old.pool;
        } }
    {
        let _number = self.numbers.remove(at);
    }
}

/// Puts a number at a place of a vector that has room for it.
fn put(numbers: &mut Vec<usize>, at: usize, number: usize)
    requires within { at ≤ vec_len numbers.old }
    requires room { vec_len numbers.old < vec_capacity numbers.old }
    ensures { numbers.new.items ≡ insert numbers.old.items at number }
{
    match numbers.insert(at, number) {
        Ok(()) => (),
        Err(_) => unreachable!(),
    }
}
