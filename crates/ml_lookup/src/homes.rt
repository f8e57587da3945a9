//! Where a key is at home in a file, and what is there.
ghost use Rattle.std.specs.Prelude.{◌≡◌, ◌↔◌, Contains, IsTrue, MatchOption};
ghost use Rattle.ml_file.specs.Files.{IsAbsent, IsHeld};
ghost use Rattle.ml_home.specs.Homes.{IsHome};
ghost use Rattle.ml_lookup.specs.Full.{IsFull};
ghost use Rattle.ml_region.specs.Regions.{keys_of, region_prefixes};

use ml_bits::Bits;
use ml_file::{BangFile, MAX_REGION_ITEMS};
use ml_region::Item;

/// The prefix that a key is at home in: the longest prefix of a region that begins it. It takes no
/// memory.
pub fn home<'a>(file: &'a BangFile, key: &Bits) -> &'a Bits
    ensures { IsHome (region_prefixes file.now.regions) key.now.bits result.now.bits }
{
    let regions = file.regions();
    regions.prefix(regions.owner_of(key))
}

/// What a file has for a key.
#[derive(Clone, Copy)]
pub struct Look<'a> {
    /// The prefix that the key is at home in.
    pub home: &'a Bits,
    /// The item that has the key.
    pub item: Option<&'a Item>,
    /// Whether the region of that prefix has 24 items, so that it is split before an item comes.
    pub full: bool,
}

// The item that has a key among those of a region, if there is one.
fn with_key<'a>(items: &'a [Item], key: &Bits) -> Option<&'a Item>
    ensures { MatchOption result (Contains (keys_of items.now) key.now.bits → ⊥)
        (λ item. Contains items.now item.now × (item.now.key.bits ≡ key.now.bits)) }
{
    for item in items {
        if item.key.cmp(key).is_eq() {
            return Some(item);
        }
    }
    None
}

/// The home of a key, the item that has it, of which there is none exactly where no item has it,
/// and whether the home's region is full. The owner is searched once. It takes no memory.
pub fn look_up<'a>(file: &'a BangFile, key: &Bits) -> Look<'a>
    ensures home { IsHome (region_prefixes file.now.regions) key.now.bits result.home.now.bits }
    ensures item { MatchOption result.item (IsAbsent file.now.regions key.now.bits)
        (λ item. IsHeld file.now.regions key.now.bits item.now) }
    ensures full { IsTrue result.full ↔ IsFull file.now.regions key.now.bits }
{
    let regions = file.regions();
    let _well_placed = regions.len();
    let owner = regions.owner_of(key);
    let items = regions.items(owner);
    Look {
        home: regions.prefix(owner),
        item: with_key(items, key),
        full: items.len() >= MAX_REGION_ITEMS,
    }
}
