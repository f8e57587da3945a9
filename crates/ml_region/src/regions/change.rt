//! One item that comes, goes or is marked.
ghost use Rattle.std.specs.Prelude.{◌≡◌, ◌<◌, ℕ, length, MatchOption};
ghost use Rattle.ml_region.specs.Changes.{IsMarked, IsPut, IsTaken};
ghost use Rattle.ml_region.specs.Keeping.{IsCommittedAt};
ghost use Rattle.ml_region.specs.Prefixes.{IsOwner};
ghost use Rattle.ml_region.specs.Regions.{HasKey, HasNoKey, IsApart, items_at, region_prefixes};

use crate::directory::Directory;
use crate::item::{Id, Item};
use crate::limits::PAGE_ITEMS;
use crate::regions::Regions;
use ml_bits::Bits;

impl<D: Directory> Regions<D> {
    /// Puts an item into the region that owns its key. It takes no memory.
    pub fn place(&mut self, item: Item)
        requires apart { IsApart self.old.regions item.key.bits }
        requires few { (i : ℕ) → IsOwner (region_prefixes self.old.regions) item.key.bits i
            → length (items_at self.old.regions i) < PAGE_ITEMS }
        ensures regions { IsPut self.old.regions item self.new.regions }
        ensures room { self.new.room ≡ self.old.room }
    {
        let slot = self.dir.owner(&item.key);
        let j = self.pages[slot].first_from(&item.key);
        self.pages[slot].put(j, item);
    }

    /// Takes the item that has a key out. There is none exactly where no item has the key, and then
    /// nothing changes. It takes no memory.
    pub fn take(&mut self, key: &Bits) -> Option<Item>
        ensures regions { MatchOption result
            ((self.new.regions ≡ self.old.regions) × HasNoKey self.old.regions key.now.bits)
            (λ item. IsTaken self.old.regions key.now.bits item self.new.regions) }
        ensures room { self.new.room ≡ self.old.room }
    {
        let slot = self.dir.owner(key);
        match self.pages[slot].find(key) {
            Some(j) => Some(self.pages[slot].take(j)),
            None => None,
        }
    }

    /// Sets whether the item that has a key is committed, and where it came from. It takes no
    /// memory.
    pub fn mark(&mut self, key: &Bits, committed: bool, id: Id)
        requires { HasKey self.old.regions key.now.bits }
        ensures regions { IsMarked self.old.regions key.now.bits committed id self.new.regions }
        ensures room { self.new.room ≡ self.old.room }
    {
        let slot = self.dir.owner(key);
        match self.pages[slot].find(key) {
            Some(j) => self.pages[slot].mark(j, committed, id),
            None => unreachable!(),
        }
    }

    /// Marks the item that has a key as committed by the entry at a place of the history. The
    /// number of its change stays. It takes no memory.
    pub fn keep(&mut self, key: &Bits, place: u32)
        requires { HasKey self.old.regions key.now.bits }
        ensures regions { IsCommittedAt self.old.regions key.now.bits place self.new.regions }
        ensures room { self.new.room ≡ self.old.room }
    {
        let slot = self.dir.owner(key);
        match self.pages[slot].find(key) {
            Some(j) => {
                let change = self.pages[slot].item(j).id.change;
                self.pages[slot].mark(j, true, Id { place, change });
            }
            None => unreachable!(),
        }
    }
}
