//! The regions of a file, and what can be read of them.
ghost use Rattle.std.specs.Prelude.{◌≡◌, ◌<◌, ◌≤◌, [], ◌∷◌, length, max, slice_index_or, IfOk};
ghost use Rattle.std.specs.Prelude.{MatchOption, OnErr, OnOk};
ghost use Rattle.ml_region.specs.Listing.{only_root, prefixes_of};
ghost use Rattle.ml_region.specs.Prefixes.{AreRooted, IsLastUpTo, IsOwner, IsParent};
ghost use Rattle.ml_region.specs.Regions.{HasNoKey, IsFound, IsWellPlaced, empty_region, items_at};
ghost use Rattle.ml_region.specs.Regions.{region_at, region_prefixes};

mod change;
mod compatible;
mod cut;
mod merge;
mod recut;

use crate::directory::{Directory, Slot};
use crate::item::Item;
use crate::page::Page;
use crate::places::slot_of;
use crate::prefixes::DirectoryPrefixes;
use crate::searches::{last_up_to, owner_within};
use ml_bits::{Bits, OutOfMemory};
use std::alloc::Global;
use std::marker::Model;

/// The regions of one file: a directory of their prefixes and their pages, a page at its slot.
/// Contracts see the regions in the order of their prefixes, each with its items, and the room that
/// every prefix has. A region is named by its place in that order, from 0; the empty prefix has the
/// place 0. They are well placed at all times.
#[derive(Drop)]
pub struct Regions<D: Directory> {
    pub(crate) dir: D,
    pub(crate) pages: Vec<Page>,
    pub(crate) free: Vec<Slot>,
}

impl<D: Directory> Model for Regions<D> {
    ghost use Rattle.std.specs.Prelude.{vec_capacity};
    ghost use Rattle.std.specs.Coded.{codes};
    ghost use Rattle.ml_region.specs.contracts.item.Item as item;
    ghost use Rattle.ml_region.specs.Regions.{RegionList};

    ghost Value = { RegionList };

    ghost coded = { Prim.hlevel (codes, item.the_row.coded) };

    ghost use Rattle.ml_region.specs.inside.Stored.{IsStored, regions_of};

    ghost view = { λ r. record {
      regions = regions_of (D.listing r.dir).entries r.pages.items;
      room = (D.listing r.dir).room;
    } };

    ghost invariant = { λ r. IsStored (D.listing r.dir).entries r.pages.items r.free.items
        (vec_capacity r.free) };
}

impl<D: Directory> Regions<D> {
    /// One region without items.
    pub fn new(alloc: Global, dir: D) -> Result<Regions<D>, OutOfMemory>
        requires { (D.listing dir).entries ≡ only_root }
        ensures { IfOk result (λ made. made
            ≡ record { regions = empty_region ∷ []; room = (D.listing dir).room }) }
    {
        let mut pages = Vec::new(alloc);
        pages.push(Page::new(alloc)?)?;
        let free = Vec::with_capacity(alloc, 1)?;
        Ok(Regions { dir, pages, free })
    }

    /// How many regions there are.
    pub fn len(&self) -> usize
        ensures length { result ≡ length self.now.regions }
        ensures well_placed { IsWellPlaced self.now.regions }
    {
        self.pages.len() - self.free.len()
    }

    /// The prefix of a region.
    pub fn prefix(&self, i: usize) -> &Bits
        requires { i < length self.now.regions }
        ensures bits { result.now.bits ≡ (region_at self.now.regions i).prefix }
        ensures room { self.now.room ≤ result.now.room }
    {
        match self.dir.prefix_at(i) {
            Some(prefix) => prefix,
            None => unreachable!(),
        }
    }

    // The prefixes of the regions, for a search.
    fn prefixes(&self) -> DirectoryPrefixes<'_, D>
        ensures same { prefixes_of (D.listing result.dir.now).entries
            ≡ region_prefixes self.now.regions }
        ensures rooted { AreRooted (region_prefixes self.now.regions) }
    {
        DirectoryPrefixes {
            dir: &self.dir,
            len: self.len(),
        }
    }

    // The page of a region.
    fn page(&self, i: usize) -> &Page
        requires { i < length self.now.regions }
        ensures { result.now ≡ items_at self.now.regions i }
    {
        &self.pages[slot_of(&self.dir, i)]
    }

    /// How many items a region has.
    pub fn count(&self, i: usize) -> usize
        requires { i < length self.now.regions }
        ensures { result ≡ length (items_at self.now.regions i) }
    {
        self.page(i).len()
    }

    /// The items of a region in key order.
    pub fn items(&self, i: usize) -> &[Item]
        requires { i < length self.now.regions }
        ensures { result.now ≡ items_at self.now.regions i }
    {
        self.page(i).items()
    }

    /// An item of a region, by its place in key order.
    pub fn item(&self, i: usize, j: usize) -> &Item
        requires region { i < length self.now.regions }
        requires item { j < length (items_at self.now.regions i) }
        ensures { result.now ≡ slice_index_or (items_at self.now.regions i) j result.now }
    {
        self.page(i).item(j)
    }

    /// The region that owns a key: the one with the longest prefix that begins it.
    pub fn owner_of(&self, key: &Bits) -> usize
        ensures { IsOwner (region_prefixes self.now.regions) key.now.bits result }
    {
        owner_within(&self.prefixes(), key, key.len())
    }

    /// The last region in the order of prefixes whose prefix doesn't come after a key.
    pub fn last_not_after(&self, key: &Bits) -> usize
        ensures { IsLastUpTo (region_prefixes self.now.regions) key.now.bits result }
    {
        last_up_to(&self.prefixes(), key, key.len())
    }

    /// The parent of a region: the one with the longest shorter prefix that begins its own. The
    /// empty prefix alone has none.
    pub fn parent_of(&self, i: usize) -> Option<usize>
        requires { i < length self.now.regions }
        ensures { MatchOption result (i ≡ 0)
            (λ parent. IsParent (region_prefixes self.now.regions)
            (region_at self.now.regions i).prefix parent) }
    {
        let prefixes = self.prefixes();
        let prefix = self.prefix(i);
        if prefix.is_empty() {
            return None;
        }
        Some(owner_within(&prefixes, prefix, prefix.len() - 1))
    }

    /// The item that has a key. There is none exactly where no item has it.
    pub fn find(&self, key: &Bits) -> Option<&Item>
        ensures { MatchOption result (HasNoKey self.now.regions key.now.bits)
            (λ item. IsFound self.now.regions key.now.bits item.now) }
    {
        let page = &self.pages[self.dir.owner(key)];
        let j = page.find(key)?;
        Some(page.item(j))
    }

    /// Gives every prefix room for so many bits. After an error nothing has changed.
    pub fn make_room(&mut self, bits: usize) -> Result<(), OutOfMemory>
        ensures regions { self.new.regions ≡ self.old.regions }
        ensures ok { OnOk result (self.new.room ≡ max self.old.room bits) }
        ensures err { OnErr result (self.new.room ≡ self.old.room) }
    {
        self.dir.make_room(bits)
    }
}
