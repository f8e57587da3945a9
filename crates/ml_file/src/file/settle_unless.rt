//! A file is settled, but for regions that are held.
ghost use Rattle.std.specs.Prelude.{◌≡◌, ℕ, ◌<◌, ◌≤◌, ◌↔◌, Bool, IsTrue, List, length};
ghost use Rattle.std.specs.Prelude.{IfSome, MatchOption, true};
ghost use Rattle.std.specs.List.{All};
ghost use Rattle.ml_file.specs.Files.{items_in};
ghost use Rattle.ml_file.specs.Settled.{HasSameItems};
ghost use Rattle.ml_file.specs.SettledUnless.{Answers, HasNoFreeThin, IsFirstFreeThin, IsFreeThin};
ghost use Rattle.ml_file.specs.SettledUnless.{IsSettledUnless};
ghost use Rattle.ml_region.specs.Limits.{max_region_items};
ghost use Rattle.ml_region.specs.Regions.{AreWithin, region_at};
ghost use Rattle.ml_region.specs.declared.item.Item.{Item};
ghost use Rattle.ml_split.specs.RegionSplits.{is_thin};

use crate::file::BangFile;
use crate::file::settle_all::is_thin;
use ml_bits::Bits;
use ml_region::{Directory, Regions};
use ml_split::settle;

// Whether a region is thin, and neither it nor its parent is held.
fn is_free_thin<D: Directory, F: Fn(&Bits) -> bool>(
    regions: &Regions<D>,
    i: usize,
    held: &F,
) -> bool
    requires callable { F.IsAlwaysCallable held.now }
    requires region { i < length regions.now.regions }
    ensures free { (h : List Bool → Bool) → Answers F.Fn held.now h →
        (IsTrue result ↔ IsFreeThin h regions.now.regions i) }
    ensures thin { result ≡ true → is_thin (region_at regions.now.regions i) ≡ true }
{
    let _well_placed = regions.len();
    if !is_thin(regions, i) || held(regions.prefix(i)) {
        return false;
    }
    let Some(parent) = regions.parent_of(i) else {
        return false;
    };
    !held(regions.prefix(parent))
}

// The first thin region that is free to go, if there is one.
fn first_free_thin<D: Directory, F: Fn(&Bits) -> bool>(
    regions: &Regions<D>,
    held: &F,
) -> Option<usize>
    requires { F.IsAlwaysCallable held.now }
    ensures first { (h : List Bool → Bool) → Answers F.Fn held.now h →
        MatchOption result (HasNoFreeThin h regions.now.regions)
        (λ i. IsFirstFreeThin h regions.now.regions i) }
    ensures within { IfSome result (λ i. i < length regions.now.regions) }
    ensures thin { IfSome result (λ i. is_thin (region_at regions.now.regions i) ≡ true) }
{
    for i in 0..regions.len() {
        if is_free_thin(regions, i, held) {
            return Some(i);
        }
    }
    None
}

// Settles the first thin region that is free to go until there is none. It takes no memory.
fn settle_free<D: Directory, F: Fn(&Bits) -> bool>(regions: &mut Regions<D>, held: &F)
    requires callable { F.IsAlwaysCallable held.now }
    requires few { AreWithin max_region_items regions.old.regions }
    requires roomy { All (λ (x : Item). length x.key.bits ≤ regions.old.room)
        (items_in regions.old.regions) }
    ensures items { HasSameItems regions.old.regions regions.new.regions }
    ensures steps { (h : List Bool → Bool) → Answers F.Fn held.now h →
        IsSettledUnless h regions.old.regions regions.new.regions }
    ensures free { (h : List Bool → Bool) → Answers F.Fn held.now h →
        HasNoFreeThin h regions.new.regions }
    ensures few { AreWithin max_region_items regions.new.regions }
    ensures room { regions.new.room ≡ regions.old.room }
{
    'settling: loop {
        let _well_placed = regions.len();
        let Some(i) = first_free_thin(regions, held) else {
            return;
        };
        settle(regions, i);
    }
}

impl BangFile {
    /// Settles the first thin region that is free to go until there is none: one of which neither
    /// the prefix nor that of its parent is held. Its items go to its parent, and where over 24
    /// meet they are split again. It takes no memory.
    pub fn settle_unless<F: Fn(&Bits) -> bool>(&mut self, held: &F)
        requires { F.IsAlwaysCallable held.now }
        ensures items { HasSameItems self.old.regions self.new.regions }
        ensures steps { (h : List Bool → Bool) → Answers F.Fn held.now h →
            IsSettledUnless h self.old.regions self.new.regions }
        ensures free { (h : List Bool → Bool) → Answers F.Fn held.now h →
            HasNoFreeThin h self.new.regions }
        ensures others { self.new ≡ record self.old { regions = self.new.regions } }
    {
        settle_free(&mut self.regions, held);
    }
}
