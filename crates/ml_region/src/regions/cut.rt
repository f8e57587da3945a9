//! A region that is cut in two.
ghost use Rattle.std.specs.Prelude.{◌≡◌, ◌<◌, ◌≤◌, ℕ, List, length, vec_capacity, OnErr};
ghost use Rattle.std.specs.Prelude.{OnOk};
ghost use Rattle.ml_region.specs.Changes.{IsCut};
ghost use Rattle.ml_region.specs.Listing.{Entry};
ghost use Rattle.ml_region.specs.Prefixes.{bits_at};
ghost use Rattle.ml_region.specs.Regions.{items_at, key_front, keys_at, region_at};
ghost use Rattle.ml_region.specs.inside.Stored.{AreShared, page_at};

use crate::directory::{Directory, Slot};
use crate::moves::move_below;
use crate::page::Page;
use crate::places::{prefix_among, slot_of};
use crate::regions::Regions;
use ml_bits::OutOfMemory;

// Sees that some slot is free, and makes a page for one if none is. After an error all is as
// before, but there may be more memory.
fn make_spare(pages: &mut Vec<Page>, free: &mut Vec<Slot>) -> Result<(), OutOfMemory>
    requires { length pages.old.items ≤ vec_capacity free.old }
    ensures shared { (entries : List Entry) →
        AreShared entries free.old.items (length pages.old.items)
        → AreShared entries free.new.items (length pages.new.items) }
    ensures pages { (slot : ℕ) → page_at pages.new.items slot ≡ page_at pages.old.items slot }
    ensures reserved { length pages.new.items ≤ vec_capacity free.new }
    ensures ok { OnOk result (0 < length free.new.items) }
{
    if !free.is_empty() {
        return Ok(());
    }
    let slot = pages.len();
    free.reserve(slot + 1)?;
    let page = Page::new(*pages.allocator())?;
    pages.push(page)?;
    free.push_reserved(slot);
    Ok(())
}

impl<D: Directory> Regions<D> {
    /// Makes the first `n` bits of the key of an item a region, and moves the items of its region
    /// that begin with them to it. After an error nothing has changed.
    pub fn cut(&mut self, i: usize, j: usize, n: usize) -> Result<(), OutOfMemory>
        requires region { i < length self.old.regions }
        requires item { j < length (items_at self.old.regions i) }
        requires longer { length (region_at self.old.regions i).prefix < n }
        requires within { n ≤ length (bits_at (keys_at self.old.regions i) j) }
        ensures ok { OnOk result (IsCut self.old.regions i
            (key_front self.old.regions i j n) self.new.regions) }
        ensures err { OnErr result (self.new.regions ≡ self.old.regions) }
        ensures room { self.new.room ≡ self.old.room }
    {
        let len = self.len();
        let from = slot_of(&self.dir, i);
        let prefix = self.pages[from].item(j).key.prefix(n)?;
        make_spare(&mut self.pages, &mut self.free)?;
        let to = self.free[self.free.len() - 1];
        self.dir.add(prefix, to)?;
        let _taken = self.free.pop();
        let added = prefix_among(&self.dir, len + 1, &self.pages[from].item(j).key, n);
        self.pages[to].clear();
        move_below(&mut self.pages, from, to, added);
        Ok(())
    }
}
