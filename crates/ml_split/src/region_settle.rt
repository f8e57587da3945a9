//! A thin region merged into its parent, and split again where they are too many.
ghost use Rattle.std.specs.Prelude.{Bool, List, ◌≡◌, ◌≢◌, ℕ, ◌<◌, ◌≤◌, ◌++◌, length};
ghost use Rattle.std.specs.List.{All};
ghost use Rattle.ml_region.specs.Limits.{max_region_items, min_region_items};
ghost use Rattle.ml_region.specs.Prefixes.{IsParent};
ghost use Rattle.ml_region.specs.Regions.{AreWithin, items_at, key_front, keys_at, region_at};
ghost use Rattle.ml_region.specs.Regions.{region_prefixes};
ghost use Rattle.ml_split.specs.RegionSplits.{IsOneOf, IsSettled, IsSplitPlace};

use crate::meeting_keys::MeetingKeys;
use crate::place::split_place;
use ml_region::{Directory, MAX_REGION_ITEMS, Regions};

/// Moves the items of thin region `i` to its parent, which has at most 24. Where over 24 meet, they
/// are split again by the rule. If no region had over 24 items, none has. It takes no memory: the
/// room is at least the length of every key of the two.
pub fn settle<D: Directory>(regions: &mut Regions<D>, i: usize)
    requires nested { 0 < i }
    requires within { i < length regions.old.regions }
    requires thin { length (items_at regions.old.regions i) < min_region_items }
    requires parent { (p : ℕ) → IsParent (region_prefixes regions.old.regions)
        (region_at regions.old.regions i).prefix p →
        length (items_at regions.old.regions p) ≤ max_region_items }
    requires room { (p : ℕ) → IsParent (region_prefixes regions.old.regions)
        (region_at regions.old.regions i).prefix p →
        All (λ (key : List Bool). length key ≤ regions.old.room)
        (keys_at regions.old.regions i ++ keys_at regions.old.regions p) }
    ensures settled { IsSettled regions.old.regions i regions.new.regions }
    ensures few { AreWithin max_region_items regions.old.regions →
        AreWithin max_region_items regions.new.regions }
    ensures room { regions.new.room ≡ regions.old.room }
{
    let Some(parent) = regions.parent_of(i) else {
        unreachable!()
    };
    let _well_placed = regions.len();
    if regions.count(i) + regions.count(parent) <= MAX_REGION_ITEMS {
        regions.merge(i);
        return;
    }
    let place = meeting_place(regions, i, parent);
    // The page and the directory's node of region `i` serve the new region.
    regions.recut(i, place.region, place.item, place.bits);
}

// Where two regions are split that meet: the new prefix is the first `bits` bits of the key of item
// `item` of region `region`.
#[derive(Clone, Copy)]
struct MeetingPlace {
    region: usize,
    item: usize,
    bits: usize,
}

// Where the keys of a thin region and of its parent are split. It takes no memory.
fn meeting_place<D: Directory>(regions: &Regions<D>, i: usize, parent: usize) -> MeetingPlace
    requires region { i < length regions.now.regions }
    requires parent { IsParent (region_prefixes regions.now.regions)
        (region_at regions.now.regions i).prefix parent }
    requires thin { length (items_at regions.now.regions i) < min_region_items }
    requires many { max_region_items <
        length (keys_at regions.now.regions i ++ keys_at regions.now.regions parent) }
    ensures one { IsOneOf result.region i parent }
    ensures within { result.region < length regions.now.regions }
    ensures place { IsSplitPlace regions.now.regions result.region result.item result.bits
        (keys_at regions.now.regions i ++ keys_at regions.now.regions parent)
        (region_at regions.now.regions parent).prefix }
    ensures new { (q : ℕ) → q < length regions.now.regions →
        (region_at regions.now.regions q).prefix
        ≢ key_front regions.now.regions result.region result.item result.bits }
{
    let _well_placed = regions.len();
    let keys = MeetingKeys {
        own: regions.items(i),
        above: regions.items(parent),
    };
    let place = split_place(&keys, regions.prefix(parent));
    let own = regions.count(i);
    if place.key < own {
        MeetingPlace {
            region: i,
            item: place.key,
            bits: place.bits,
        }
    } else {
        MeetingPlace {
            region: parent,
            item: place.key - own,
            bits: place.bits,
        }
    }
}
