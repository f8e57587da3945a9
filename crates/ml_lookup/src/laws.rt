//! Laws of puts and of the prefixes that were told before. The functions do nothing: their
//! contracts are the laws.
ghost use Rattle.std.specs.Prelude.{◌≡◌, ℕ, ◌<◌, ◌^◌, Bool, List};
ghost use Rattle.ml_file.specs.Adding.{HasGrown, MayCome};
ghost use Rattle.ml_file.specs.Files.{IsAbsent, IsFile};
ghost use Rattle.ml_home.specs.Homes.{Divides, HasCome, IsHome};
ghost use Rattle.ml_lookup.specs.Full.{IsFull, WouldSplit};
ghost use Rattle.ml_region.specs.Regions.{IsApart, IsWellPlaced, Region, region_at};
ghost use Rattle.ml_region.specs.Regions.{region_prefixes};
ghost use Rattle.ml_region.specs.declared.item.Item.{Item};
ghost use Rattle.ml_term.specs.declared.declaration.Decl.{Decl};

/// The key of an item that may come, and whose key no item has, is apart from all keys.
pub fn keys_that_come_are_apart()
    ensures { (decl : Decl) (regions : List Region) (room : ℕ) (item : Item) →
        IsFile decl regions room → MayCome decl regions item → item.number < 2 ^ 64 →
        IsAbsent regions item.key.bits → IsApart regions item.key.bits }
{}

/// A put adds exactly the prefix that `would_split` told, and none where it told none.
/// `told`: the prefix that was told comes, and no other. `none`: the prefixes stay as they were.
/// `divides`: it divides the key's home.
pub fn a_put_adds_the_prefix_told()
    ensures told { (old new : List Region) (item : Item) (prefix : List Bool) →
        IsWellPlaced old → WouldSplit old item.key.bits prefix → HasGrown old item new →
        HasCome (region_prefixes old) (region_prefixes new) prefix }
    ensures none { (old new : List Region) (item : Item) → (IsFull old item.key.bits → ⊥) →
        HasGrown old item new → region_prefixes new ≡ region_prefixes old }
    ensures divides { (regions : List Region) (key prefix home : List Bool) →
        IsWellPlaced regions → IsApart regions key → WouldSplit regions key prefix →
        IsHome (region_prefixes regions) key home →
        Divides (region_prefixes regions) home prefix }
{}
