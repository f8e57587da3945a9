//! A region that goes into its parent, which is cut anew.
ghost use Rattle.std.specs.Prelude.{◌≡◌, ◌≢◌, ◌⊎◌, ◌+◌, ◌<◌, ◌≤◌, ℕ, length};
ghost use Rattle.ml_region.specs.Changes.{IsRecut};
ghost use Rattle.ml_region.specs.Prefixes.{IsParent, bits_at};
ghost use Rattle.ml_region.specs.Regions.{items_at, key_front, keys_at, region_at, region_prefixes};

use crate::directory::Directory;
use crate::limits::PAGE_ITEMS;
use crate::moves::pour_and_part;
use crate::places::{parent_slot, prefix_among, slot_of};
use crate::regions::Regions;

impl<D: Directory> Regions<D> {
    /// Merges a region into its parent, and makes the first `n` bits of the key that an item of one
    /// of the two had a region. The page of the region that went serves the new one, so it takes no
    /// memory.
    pub fn recut(&mut self, i: usize, r: usize, j: usize, n: usize)
        requires nested { 0 < i }
        requires within { i < length self.old.regions }
        requires few { (parent : ℕ) → IsParent (region_prefixes self.old.regions)
            (region_at self.old.regions i).prefix parent
            → length (items_at self.old.regions parent) + length (items_at self.old.regions i)
            ≤ PAGE_ITEMS }
        requires region { (r ≡ i) ⊎ IsParent (region_prefixes self.old.regions)
            (region_at self.old.regions i).prefix r }
        requires item { j < length (items_at self.old.regions r) }
        requires longer { (parent : ℕ) →
            IsParent (region_prefixes self.old.regions) (region_at self.old.regions i).prefix parent
            → length (region_at self.old.regions parent).prefix < n }
        requires bits { n ≤ length (bits_at (keys_at self.old.regions r) j) }
        requires prefix { (m : ℕ) → m < length self.old.regions
            → (region_at self.old.regions m).prefix
            ≢ key_front self.old.regions r j n }
        requires room { n ≤ self.old.room }
        ensures regions { IsRecut self.old.regions i
            (key_front self.old.regions r j n) self.new.regions }
        ensures room { self.new.room ≡ self.old.room }
    {
        let len = self.len();
        let from = slot_of(&self.dir, i);
        let to = parent_slot(&self.dir, i);
        let source = slot_of(&self.dir, r);
        let key = &self.pages[source].item(j).key;
        self.dir.rename(i, key, n);
        let renamed = prefix_among(&self.dir, len, key, n);
        pour_and_part(&mut self.pages, from, to, renamed);
    }
}
