//! A file, and what can be read of it.
ghost use Rattle.std.specs.Prelude.{◌≡◌, ◌<◌, [], ◌∷◌, length, slice_index_or, IfOk, MatchOption};
ghost use Rattle.ml_file.specs.Files.{IsAbsent, IsFile, IsHeld, IsRemoved};
ghost use Rattle.ml_region.specs.Prefixes.{IsOwner};
ghost use Rattle.ml_region.specs.Regions.{IsWellPlaced, empty_region, items_at, region_at};

mod hits;
mod insert;
mod mark;
mod put;
mod settle_all;
mod settle_unless;

use ml_bits::{Bits, OutOfMemory};
use ml_region::{Item, Regions, SortedDir};
use ml_term::Decl;
pub use put::Put;
use std::alloc::Global;
use std::marker::Model;

/// Whether an item was taken out.
#[derive(Clone, Copy, Debug, PartialEq, Eq)]
pub enum Took {
    /// The item that had the key is no more.
    Removed,
    /// No item had the key.
    Absent,
}

/// The items of one declaration. Contracts see the declaration, the regions with their items, the
/// room that every prefix has, and how many inserts added an item. A region is named by its place
/// in the order of prefixes, from 0.
#[derive(Drop)]
pub struct BangFile {
    pub(crate) decl: Decl,
    pub(crate) regions: Regions<SortedDir>,
    pub(crate) added: u32,
    pub(crate) alloc: Global,
}

impl Model for BangFile {
    ghost use Rattle.std.specs.Coded.{codes};
    ghost use Rattle.ml_region.specs.contracts.item.Item as item;
    ghost use Rattle.ml_file.specs.Files.{File, IsFile};

    ghost Value = { File };

    ghost coded = { Prim.hlevel (codes, item.the_row.coded) };

    ghost view = { λ f. record {
      decl = f.decl;
      regions = f.regions.regions;
      room = f.regions.room;
      added = f.added;
    } };

    ghost invariant = { λ f. IsFile f.decl f.regions.regions f.regions.room };
}

impl BangFile {
    /// A file without items: one region of the empty prefix.
    pub fn new(alloc: Global, decl: Decl) -> Result<BangFile, OutOfMemory>
        ensures { IfOk result (λ file. file
            ≡ record { decl = decl; regions = empty_region ∷ []; room = 0; added = 0 }) }
    {
        let dir = SortedDir::new(alloc)?;
        let regions = Regions::new(alloc, dir)?;
        Ok(BangFile {
            decl,
            regions,
            added: 0,
            alloc,
        })
    }

    /// The declaration that the file was made with.
    pub fn decl(&self) -> &Decl
        ensures { result.now ≡ self.now.decl }
    {
        &self.decl
    }

    /// The regions, to be read.
    pub fn regions(&self) -> &Regions<SortedDir>
        ensures { result.now.regions ≡ self.now.regions }
    {
        &self.regions
    }

    /// How many regions there are. They are well placed, no one has over 24 items, and each item is
    /// one of the declaration under its key.
    pub fn len(&self) -> usize
        ensures length { result ≡ length self.now.regions }
        ensures well_placed { IsWellPlaced self.now.regions }
        ensures kept { IsFile self.now.decl self.now.regions self.now.room }
    {
        self.regions.len()
    }

    /// The prefix of a region.
    pub fn prefix(&self, i: usize) -> &Bits
        requires { i < length self.now.regions }
        ensures { result.now.bits ≡ (region_at self.now.regions i).prefix }
    {
        self.regions.prefix(i)
    }

    /// How many items a region has.
    pub fn count(&self, i: usize) -> usize
        requires { i < length self.now.regions }
        ensures { result ≡ length (items_at self.now.regions i) }
    {
        self.regions.count(i)
    }

    /// An item of a region, by its place in key order.
    pub fn item(&self, i: usize, j: usize) -> &Item
        requires region { i < length self.now.regions }
        requires item { j < length (items_at self.now.regions i) }
        ensures { result.now ≡ slice_index_or (items_at self.now.regions i) j result.now }
    {
        self.regions.item(i, j)
    }

    /// The item that has a key. There is none exactly where no item has it. It takes no memory.
    pub fn at(&self, key: &Bits) -> Option<&Item>
        ensures { MatchOption result (IsAbsent self.now.regions key.now.bits)
            (λ item. IsHeld self.now.regions key.now.bits item.now) }
    {
        self.regions.find(key)
    }

    /// Takes the item that has a key out. It takes no memory, and settles nothing.
    pub fn remove(&mut self, key: &Bits) -> Took
        ensures removed { result ≡ Took.Removed →
            IsRemoved self.old.regions key.now.bits self.new.regions }
        ensures absent { result ≡ Took.Absent → IsAbsent self.old.regions key.now.bits }
        ensures unchanged { result ≡ Took.Absent → self.new ≡ self.old }
        ensures others { self.new ≡ record self.old { regions = self.new.regions } }
    {
        let _well_placed = self.regions.len();
        let Some(_item) = self.regions.take(key) else {
            return Took::Absent;
        };
        Took::Removed
    }
}
