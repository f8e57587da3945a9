//! The items of one region, and the searches among them.
ghost use Rattle.std.specs.Prelude.{◌≡◌, ◌<◌, ◌≤◌, ◌∷◌, ◌++◌, [], length, slice_index_or, Contains};
ghost use Rattle.std.specs.Prelude.{IfOk, MatchOption};
ghost use Rattle.std.specs.List.{insert, remove};
ghost use Rattle.ml_region.specs.Changes.{IsMarkedAt};
ghost use Rattle.ml_region.specs.Prefixes.{IsRising, bits_at};
ghost use Rattle.ml_region.specs.Regions.{keys_of};
ghost use Rattle.ml_region.specs.inside.Stored.{IsFirstFrom};

use crate::item::{Id, Item};
use crate::limits::PAGE_ITEMS;
use ml_bits::{Bits, OutOfMemory};
use std::alloc::Global;
use std::marker::Model;

// The items of one region. The memory for as many as a region can hold is taken when the page is
// made.
#[derive(Drop)]
pub(crate) struct Page {
    items: Vec<Item>,
}

impl Model for Page {
    ghost use Rattle.std.specs.Prelude.{List, ◌≤◌, vec_capacity};
    ghost use Rattle.std.specs.Coded.{coded_list};
    ghost use Rattle.ml_region.specs.Limits.{page_items};
    ghost use Rattle.ml_region.specs.contracts.item.Item as item;
    ghost use Rattle.ml_region.specs.declared.item.Item.{Item};

    ghost Value = { List Item };

    ghost coded = { coded_list item.the_row.coded };

    ghost view = { λ p. p.items.items };

    ghost invariant = { λ p. page_items ≤ vec_capacity p.items };
}

impl Page {
    // A page without items.
    pub(crate) fn new(alloc: Global) -> Result<Page, OutOfMemory>
        ensures { IfOk result (λ page. page ≡ []) }
    {
        Ok(Page {
            items: Vec::with_capacity(alloc, PAGE_ITEMS)?,
        })
    }

    // How many items it has.
    pub(crate) fn len(&self) -> usize
        ensures { result ≡ length self.now }
    {
        self.items.len()
    }

    // All of them.
    pub(crate) fn items(&self) -> &[Item]
        ensures { result.now ≡ self.now }
    {
        &self.items
    }

    // The item at a place.
    pub(crate) fn item(&self, j: usize) -> &Item
        requires { j < length self.now }
        ensures { result.now ≡ slice_index_or self.now j result.now }
    {
        &self.items[j]
    }

    // The place of the first item whose key does not come before a key.
    pub(crate) fn first_from(&self, key: &Bits) -> usize
        requires { IsRising (keys_of self.now) }
        ensures { IsFirstFrom (keys_of self.now) key.now.bits result }
    {
        let mut low = 0;
        let mut high = self.items.len();
        'halves: while low < high {
            let mid = low + (high - low) / 2;
            if self.items[mid].key.cmp(key).is_lt() {
                low = mid + 1;
            } else {
                high = mid;
            }
        }
        low
    }

    // The place of the item that has a key.
    pub(crate) fn find(&self, key: &Bits) -> Option<usize>
        requires { IsRising (keys_of self.now) }
        ensures { MatchOption result (Contains (keys_of self.now) key.now.bits → ⊥)
            (λ j. (j < length self.now) × (bits_at (keys_of self.now) j ≡ key.now.bits)) }
    {
        let j = self.first_from(key);
        if j < self.len() && self.item(j).key.cmp(key).is_eq() {
            Some(j)
        } else {
            None
        }
    }

    // Puts an item at a place.
    pub(crate) fn put(&mut self, j: usize, item: Item)
        requires within { j ≤ length self.old }
        requires few { length self.old < PAGE_ITEMS }
        ensures { self.new ≡ insert self.old j item }
    {
        match self.items.insert(j, item) {
            Ok(()) => (),
            Err(_) => unreachable!(),
        }
    }

    // Takes the item at a place out.
    pub(crate) fn take(&mut self, j: usize) -> Item
        requires { j < length self.old }
        ensures item { result ≡ slice_index_or self.old j result }
        ensures rest { self.new ≡ remove self.old j }
    {
        self.items.remove(j)
    }

    // Sets whether the item at a place is committed, and where it came from.
    pub(crate) fn mark(&mut self, j: usize, committed: bool, id: Id)
        requires { j < length self.old }
        ensures { IsMarkedAt self.old j committed id self.new }
    {
        let item = &mut self.items[j];
        item.committed = committed;
        item.id = id;
    }

    // Lets all items go.
    pub(crate) fn clear(&mut self)
        ensures { self.new ≡ [] }
    {
        self.items.clear();
    }

    // Takes the last item out, if there is one.
    pub(crate) fn pop(&mut self) -> Option<Item>
        ensures { MatchOption result ((length self.old ≡ 0) × (self.new ≡ self.old))
            (λ item. self.old ≡ self.new ++ item ∷ []) }
    {
        self.items.pop()
    }
}
