//! The regions that may hold what is looked for.
ghost use Rattle.std.specs.Prelude.{◌≡◌, ◌+◌, ◌<◌, ◌≤◌, ◌↔◌, ℕ, IsTrue, IfOk, length, map};
ghost use Rattle.std.specs.List.{filter};
ghost use Rattle.ml_bits.specs.BitList.{BitList, Begins};
ghost use Rattle.ml_region.specs.Below.{IsEndOfBelow};
ghost use Rattle.ml_region.specs.Listing.{IsListing, prefix_at, prefixes_of};
ghost use Rattle.ml_region.specs.Regions.{region_prefixes};
ghost use Rattle.ml_term.specs.Patterns.{may_hold};

use crate::directory::Directory;
use crate::regions::Regions;
use ml_bits::{Bits, OutOfMemory};
use ml_key::{Pattern, may_hold};

// Whether a prefix begins the one at a place.
fn begins_at<D: Directory>(dir: &D, prefix: &Bits, i: usize) -> bool
    requires { i < length (D.listing dir.now).entries }
    ensures { IsTrue result ↔ Begins prefix.now.bits (prefix_at (D.listing dir.now).entries i) }
{
    match dir.prefix_at(i) {
        Some(other) => prefix.is_prefix_of(other),
        None => unreachable!(),
    }
}

// The place behind the last prefix that the prefix at a place begins. All between the two begin
// with it, as the prefixes stand in order.
fn end_of_begun<D: Directory>(dir: &D, len: usize, prefix: &Bits, i: usize) -> usize
    requires listing { IsListing (D.listing dir.now).entries }
    requires len { len ≡ length (D.listing dir.now).entries }
    requires within { i < len }
    requires prefix { prefix.now.bits ≡ prefix_at (D.listing dir.now).entries i }
    ensures { IsEndOfBelow (prefixes_of (D.listing dir.now).entries) i result }
{
    let mut low = i;
    let mut high = len;
    'halves: while high - low > 1 {
        let mid = low + (high - low) / 2;
        if begins_at(dir, prefix, mid) {
            low = mid;
        } else {
            high = mid;
        }
    }
    high
}

impl<D: Directory> Regions<D> {
    /// The place behind the last region whose prefix begins with that of a region. All between the
    /// two begin with it.
    pub fn end_of_below(&self, i: usize) -> usize
        requires { i < length self.now.regions }
        ensures { IsEndOfBelow (region_prefixes self.now.regions) i result }
    {
        end_of_begun(&self.dir, self.len(), self.prefix(i), i)
    }

    /// The prefixes of the regions that may hold a key which fits a pattern, in order. A prefix
    /// that can't begin such a key rules out all prefixes below it at once.
    pub fn compatible(&self, p: &Pattern) -> Result<Vec<Bits>, OutOfMemory>
        ensures { IfOk result (λ found. map (λ (b : BitList). b.bits) found.items
            ≡ filter (λ prefix. may_hold p.now prefix) (region_prefixes self.now.regions)) }
    {
        let len = self.len();
        let mut found = Vec::new(*self.pages.allocator());
        let mut i = 0;
        'each: while i < len {
            let prefix = self.prefix(i);
            if may_hold(p, prefix) {
                found.push(prefix.copy_of()?)?;
                i += 1;
            } else {
                i = self.end_of_below(i);
            }
        }
        Ok(found)
    }
}
