//! A region that goes into its parent.
ghost use Rattle.std.specs.Prelude.{◌≡◌, ◌+◌, ◌<◌, ◌≤◌, ℕ, length};
ghost use Rattle.ml_region.specs.Changes.{IsMerged};
ghost use Rattle.ml_region.specs.Prefixes.{IsParent};
ghost use Rattle.ml_region.specs.Regions.{items_at, region_at, region_prefixes};

use crate::directory::Directory;
use crate::limits::PAGE_ITEMS;
use crate::moves::pour;
use crate::places::{parent_slot, slot_of};
use crate::regions::Regions;

impl<D: Directory> Regions<D> {
    /// Moves the items of a region to its parent, and takes the region away. It takes no memory.
    pub fn merge(&mut self, i: usize)
        requires nested { 0 < i }
        requires within { i < length self.old.regions }
        requires few { (parent : ℕ) → IsParent (region_prefixes self.old.regions)
            (region_at self.old.regions i).prefix parent
            → length (items_at self.old.regions parent) + length (items_at self.old.regions i)
            ≤ PAGE_ITEMS }
        ensures regions { IsMerged self.old.regions i self.new.regions }
        ensures room { self.new.room ≡ self.old.room }
    {
        let from = slot_of(&self.dir, i);
        let to = parent_slot(&self.dir, i);
        pour(&mut self.pages, from, to);
        self.dir.drop_prefix(i);
        self.free.push_reserved(from);
    }
}
