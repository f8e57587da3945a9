//! Which prefix would come with an item.
ghost use Rattle.std.specs.Prelude.{IfOk, MatchOption};
ghost use Rattle.ml_lookup.specs.Full.{IsFull, WouldSplit};
ghost use Rattle.ml_region.specs.Regions.{IsApart};

use ml_bits::{Bits, OutOfMemory};
use ml_file::{BangFile, MAX_REGION_ITEMS};
use ml_split::split_prefix;

/// The prefix that a put of an item with this key would add: that at which the keys of the key's
/// home and the key itself are split. There is one exactly where the home's region is full. No
/// item's key begins the key or begins with it; `keys_that_come_are_apart` gives that for every
/// item that may come and whose key no item has.
pub fn would_split(file: &BangFile, key: &Bits) -> Result<Option<Bits>, OutOfMemory>
    requires { IsApart file.now.regions key.now.bits }
    ensures { IfOk result (λ found. MatchOption found (IsFull file.now.regions key.now.bits → ⊥)
        (λ prefix. WouldSplit file.now.regions key.now.bits prefix.bits)) }
{
    let regions = file.regions();
    let _well_placed = regions.len();
    let owner = regions.owner_of(key);
    if regions.count(owner) < MAX_REGION_ITEMS {
        return Ok(None);
    }
    let prefix = split_prefix(regions, owner, Some(key))?;
    Ok(Some(prefix))
}
