//! Laws of regions that are well placed. The functions do nothing: their contracts are the laws.
ghost use Rattle.std.specs.Prelude.{◌≡◌, ℕ, Bool, IsTrue, List, Option};
ghost use Rattle.ml_region.specs.Prefixes.{IsOwner, bits_at};
ghost use Rattle.ml_region.specs.Regions.{IsFound, IsWellPlaced, Region, region_prefixes};
ghost use Rattle.ml_region.specs.declared.item.Item.{Item};
ghost use Rattle.ml_term.specs.Patterns.{fits, may_hold};

/// The region that owns a key which fits a pattern may hold such keys, so it is among the
/// compatible ones.
pub fn owners_of_fitting_keys_may_hold_them()
    ensures { (regions : List Region) (pattern : List (Option (List Bool))) (key : List Bool)
        (i : ℕ) →
        IsOwner (region_prefixes regions) key i → IsTrue (fits pattern key)
        → IsTrue (may_hold pattern (bits_at (region_prefixes regions) i)) }
{}

/// Two items of well placed regions that have one key are one item, and it stands in the region
/// that owns the key.
pub fn one_key_is_of_one_item()
    ensures item { (regions : List Region) (key : List Bool) (x y : Item) → IsWellPlaced regions →
        IsFound regions key x → IsFound regions key y → x ≡ y }
    ensures owner { (regions : List Region) (key : List Bool) (x : Item) (i : ℕ) →
        IsWellPlaced regions →
        (found : IsFound regions key x) → IsOwner (region_prefixes regions) key i →
        found.region ≡ i }
{}
