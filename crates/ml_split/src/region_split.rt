//! Where a region is split, and its split.
ghost use Rattle.std.specs.Prelude.{◌≡◌, ℕ, ◌<◌, ◌≤◌, length, IfOk, OnErr, OnOk};
ghost use Rattle.std.specs.Option.{ForSome, option_copied};
ghost use Rattle.ml_region.specs.Changes.{IsCut};
ghost use Rattle.ml_region.specs.Limits.{max_region_items};
ghost use Rattle.ml_region.specs.Regions.{AreWithin, items_at, keys_at, region_at};
ghost use Rattle.ml_split.specs.RegionSplits.{AreOthersWithin, IsNewTo, IsSplitPlace, keys_with};
ghost use Rattle.ml_split.specs.Splitting.{IsFair, IsSplit};

use crate::place::{SplitPlace, split_place};
use crate::region_keys::RegionKeys;
use crate::{Keys, OutOfMemory};
use ml_bits::Bits;
use ml_region::{Directory, Regions};

/// The prefix at which the keys of region `i` are split, and the further key if one is given, which
/// region `i` would take in. They are over 24.
pub fn split_prefix<D: Directory>(
    regions: &Regions<D>,
    i: usize,
    extra: Option<&Bits>,
) -> Result<Bits, OutOfMemory>
    requires region { i < length regions.now.regions }
    requires new { ForSome (option_copied extra) (λ key. IsNewTo regions.now.regions i key.bits) }
    requires many { max_region_items
        < length (keys_with (keys_at regions.now.regions i) (option_copied extra)) }
    ensures split { let keys = keys_with (keys_at regions.now.regions i)
        (option_copied extra.entry) in
        IfOk result (λ new. IsSplit keys (region_at regions.now.regions i).prefix new.bits) }
    ensures fair { let keys = keys_with (keys_at regions.now.regions i)
        (option_copied extra.entry) in
        IfOk result (λ new. IsFair keys (region_at regions.now.regions i).prefix new.bits) }
{
    let _well_placed = regions.len();
    let keys = RegionKeys {
        items: regions.items(i),
        further: extra,
    };
    let place = split_place(&keys, regions.prefix(i));
    keys.key(place.key).prefix(place.bits)
}

/// Splits region `i`, which has over 24 items: cuts it at the prefix at which its keys are split,
/// and gives that prefix. If no other region had over 24 items, none has. After an error the
/// regions are as they were.
pub fn split<D: Directory>(regions: &mut Regions<D>, i: usize) -> Result<Bits, OutOfMemory>
    requires region { i < length regions.old.regions }
    requires many { max_region_items < length (items_at regions.old.regions i) }
    ensures split { IfOk result (λ new.
        IsSplit (keys_at regions.old.regions i) (region_at regions.old.regions i).prefix new.bits) }
    ensures fair { IfOk result (λ new.
        IsFair (keys_at regions.old.regions i) (region_at regions.old.regions i).prefix new.bits) }
    ensures cut { IfOk result (λ new. IsCut regions.old.regions i new.bits regions.new.regions) }
    ensures few { AreOthersWithin max_region_items regions.old.regions i →
        OnOk result (AreWithin max_region_items regions.new.regions) }
    ensures err { OnErr result (regions.new.regions ≡ regions.old.regions) }
    ensures room { regions.new.room ≡ regions.old.room }
{
    let _well_placed = regions.len();
    let place = place_in(regions, i);
    let new = regions.item(i, place.key).key.prefix(place.bits)?;
    regions.cut(i, place.key, place.bits)?;
    Ok(new)
}

// Where the keys of a region are split. It takes no memory.
fn place_in<D: Directory>(regions: &Regions<D>, i: usize) -> SplitPlace
    requires region { i < length regions.now.regions }
    requires many { max_region_items < length (items_at regions.now.regions i) }
    ensures { IsSplitPlace regions.now.regions i result.key result.bits
        (keys_at regions.now.regions i) (region_at regions.now.regions i).prefix }
{
    let _well_placed = regions.len();
    let keys = RegionKeys {
        items: regions.items(i),
        further: None,
    };
    split_place(&keys, regions.prefix(i))
}
