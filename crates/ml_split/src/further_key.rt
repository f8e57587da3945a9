//! A region is split before it takes in one more key.
ghost use Rattle.std.specs.Prelude.{◌≡◌, ◌≢◌, ℕ, ◌<◌, ◌≤◌, [], ◌∷◌, ◌++◌, length, take, OnErr};
ghost use Rattle.std.specs.Prelude.{OnOk};
ghost use Rattle.ml_region.specs.Limits.{max_region_items};
ghost use Rattle.ml_region.specs.Prefixes.{bits_at};
ghost use Rattle.ml_region.specs.Regions.{AreWithin, items_at, key_front, keys_at, region_at};
ghost use Rattle.ml_split.specs.RegionSplits.{AreOthersWithin, IsNewTo, IsSplitFor, IsSplitPlace};
ghost use Rattle.ml_split.specs.Splitting.{count_under};

use crate::OutOfMemory;
use crate::place::{SplitPlace, split_place};
use crate::region_keys::RegionKeys;
use ml_bits::Bits;
use ml_region::{Directory, Regions};

/// Cuts region `i`, which has 24 items or more, at the prefix at which its keys and a further key
/// are split. The region would take that key in, and no item has it yet. If no other region had
/// over 24 items, none has. After an error the regions are as they were.
pub fn split_for<D: Directory>(
    regions: &mut Regions<D>,
    i: usize,
    key: &Bits,
) -> Result<(), OutOfMemory>
    requires region { i < length regions.old.regions }
    requires new { IsNewTo regions.old.regions i key.now.bits }
    requires many { max_region_items ≤ length (items_at regions.old.regions i) }
    ensures ok { OnOk result (IsSplitFor regions.old.regions i key.now.bits regions.new.regions) }
    ensures few { AreOthersWithin max_region_items regions.old.regions i →
        OnOk result (AreWithin max_region_items regions.new.regions) }
    ensures err { OnErr result (regions.new.regions ≡ regions.old.regions) }
    ensures room { regions.new.room ≡ regions.old.room }
{
    let _well_placed = regions.len();
    let place = item_for(regions, i, key);
    regions.cut(i, place.key, place.bits)
}

// Where the keys of a region and a further key are split, at the key of an item. It takes no
// memory.
fn item_for<D: Directory>(regions: &Regions<D>, i: usize, key: &Bits) -> SplitPlace
    requires region { i < length regions.now.regions }
    requires new { IsNewTo regions.now.regions i key.now.bits }
    requires many { max_region_items ≤ length (items_at regions.now.regions i) }
    ensures { IsSplitPlace regions.now.regions i result.key result.bits
        (keys_at regions.now.regions i ++ key.now.bits ∷ [])
        (region_at regions.now.regions i).prefix }
{
    let _well_placed = regions.len();
    let keys = RegionKeys {
        items: regions.items(i),
        further: Some(key),
    };
    let place = split_place(&keys, regions.prefix(i));
    if place.key < regions.count(i) {
        return place;
    }
    SplitPlace {
        key: item_below(regions, i, key, place.bits),
        bits: place.bits,
    }
}

// An item whose key begins with the first `bits` bits of a key. It takes no memory.
fn item_below<D: Directory>(regions: &Regions<D>, i: usize, key: &Bits, bits: usize) -> usize
    requires region { i < length regions.now.regions }
    requires bits { bits ≤ length key.now.bits }
    requires some { 0 < count_under (take bits key.now.bits) (keys_at regions.now.regions i) }
    ensures item { result < length (items_at regions.now.regions i) }
    ensures within { bits ≤ length (bits_at (keys_at regions.now.regions i) result) }
    ensures begins { key_front regions.now.regions i result bits
        ≡ take bits key.now.bits }
{
    for (j, item) in regions.items(i).iter().enumerate() {
        if key.common_len(&item.key) >= bits {
            return j;
        }
    }
    unreachable!()
}
