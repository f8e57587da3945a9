//! A file is settled: thin regions go into their parents until there is none.
ghost use Rattle.std.specs.Prelude.{◌≡◌, ℕ, ◌<◌, ◌≤◌, length, MatchOption};
ghost use Rattle.std.specs.List.{All};
ghost use Rattle.ml_file.specs.Files.{items_in};
ghost use Rattle.ml_file.specs.Settled.{AreSettled, AreSettledBefore, HasSameItems, IsFirstThin};
ghost use Rattle.ml_file.specs.Settled.{IsSettledThrough};
ghost use Rattle.ml_region.specs.Limits.{max_region_items};
ghost use Rattle.ml_region.specs.Regions.{AreWithin, region_at};
ghost use Rattle.ml_region.specs.declared.item.Item.{Item};
ghost use Rattle.ml_split.specs.RegionSplits.{is_thin};

use crate::file::BangFile;
use ml_region::{Directory, Regions};
use ml_split::{MIN_REGION_ITEMS, settle};

// Whether a region is thin.
pub(super) fn is_thin<D: Directory>(regions: &Regions<D>, i: usize) -> bool
    requires { i < length regions.now.regions }
    ensures { result ≡ is_thin (region_at regions.now.regions i) }
{
    regions.prefix(i).len() > 0 && regions.count(i) < MIN_REGION_ITEMS
}

// The first thin region in the order of prefixes, if there is one. No region in front of the place
// `from` is thin, so the search begins there.
fn first_thin<D: Directory>(regions: &Regions<D>, from: usize) -> Option<usize>
    requires from { from ≤ length regions.now.regions }
    requires settled { AreSettledBefore regions.now.regions from }
    ensures { MatchOption result (AreSettled regions.now.regions)
        (λ i. IsFirstThin regions.now.regions i) }
{
    for i in from..regions.len() {
        if is_thin(regions, i) {
            return Some(i);
        }
    }
    None
}

// Settles the first thin region until there is none. It takes no memory. A step makes no region in
// front thin, so the next one is searched from the place of the last one on.
fn settle_regions<D: Directory>(regions: &mut Regions<D>)
    requires few { AreWithin max_region_items regions.old.regions }
    requires roomy { All (λ (x : Item). length x.key.bits ≤ regions.old.room)
        (items_in regions.old.regions) }
    ensures items { HasSameItems regions.old.regions regions.new.regions }
    ensures settled { AreSettled regions.new.regions }
    ensures steps { IsSettledThrough regions.old.regions regions.new.regions }
    ensures few { AreWithin max_region_items regions.new.regions }
    ensures room { regions.new.room ≡ regions.old.room }
{
    let mut from = 0;
    'settling: loop {
        let _well_placed = regions.len();
        let Some(i) = first_thin(regions, from) else {
            return;
        };
        settle(regions, i);
        from = i;
    }
}

impl BangFile {
    /// Settles the first thin region in the order of prefixes until none is thin: its items go to
    /// its parent, and where over 24 meet they are split again.
    /// It takes no memory.
    pub fn settle_all(&mut self)
        ensures items { HasSameItems self.old.regions self.new.regions }
        ensures settled { AreSettled self.new.regions }
        ensures steps { IsSettledThrough self.old.regions self.new.regions }
        ensures others { self.new ≡ record self.old { regions = self.new.regions } }
    {
        settle_regions(&mut self.regions);
    }
}
