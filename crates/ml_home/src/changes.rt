//! What changes of regions do to their prefixes. The functions do nothing: their contracts are the
//! laws.
ghost use Rattle.std.specs.Prelude.{◌≡◌, ℕ, ◌<◌, ◌≤◌, Bool, Contains, List, [], length};
ghost use Rattle.ml_home.specs.Homes.{Divides, HasCome, HasMoved, IsAbove, IsHome};
ghost use Rattle.ml_region.specs.Changes.{IsCut, IsMarked, IsMerged, IsPut, IsTaken};
ghost use Rattle.ml_region.specs.Prefixes.{IsParent};
ghost use Rattle.ml_region.specs.Regions.{IsWellPlaced, Region, region_at, region_prefixes};
ghost use Rattle.ml_region.specs.declared.item.Id.{Id};
ghost use Rattle.ml_region.specs.declared.item.Item.{Item};
ghost use Rattle.ml_split.specs.RegionSplits.{IsNewTo, IsSettled, IsSplitFor};

/// The prefixes of well placed regions have the empty one among them.
pub fn prefixes_are_rooted()
    ensures { (regions : List Region) → IsWellPlaced regions →
        Contains (region_prefixes regions) [] }
{}

/// An item that comes into a region, goes or is marked leaves the prefixes as they were.
pub fn prefixes_of_changed_items()
    ensures put { (old new : List Region) (item : Item) → IsPut old item new →
        region_prefixes new ≡ region_prefixes old }
    ensures taken { (old new : List Region) (key : List Bool) (item : Item) →
        IsTaken old key item new → region_prefixes new ≡ region_prefixes old }
    ensures marked { (old new : List Region) (key : List Bool) (committed : Bool) (id : Id) →
        IsMarked old key committed id new → region_prefixes new ≡ region_prefixes old }
{}

/// A region that is cut brings one prefix, and a merged region takes one away. Those of a merge are
/// the region's own and its parent's.
pub fn prefixes_of_cut_and_merged_regions()
    ensures cut { (old new : List Region) (i : ℕ) (prefix : List Bool) → IsCut old i prefix new →
        HasCome (region_prefixes old) (region_prefixes new) prefix }
    ensures merged { (old new : List Region) (i : ℕ) → IsWellPlaced old → i < length old →
        IsMerged old i new →
        HasCome (region_prefixes new) (region_prefixes old) (region_at old i).prefix }
    ensures parent { (old new : List Region) (i : ℕ) → (merged : IsMerged old i new) →
        IsAbove (region_prefixes old) (region_at old i).prefix
        (region_at old merged.parent).prefix }
{}

/// A region that is split for a further key brings the prefix of the rule, which divides the home
/// of that key.
pub fn prefixes_of_a_split_region()
    ensures came { (old new : List Region) (i : ℕ) (key : List Bool) →
        (split : IsSplitFor old i key new) →
        HasCome (region_prefixes old) (region_prefixes new) split.prefix }
    ensures divides { (old new : List Region) (i : ℕ) (key : List Bool) → IsWellPlaced old →
        i < length old → IsNewTo old i key → (split : IsSplitFor old i key new) →
        Divides (region_prefixes old) (region_at old i).prefix split.prefix }
    ensures home { (regions : List Region) (i : ℕ) (key : List Bool) → IsNewTo regions i key →
        IsHome (region_prefixes regions) key (region_at regions i).prefix }
{}

/// A settling step takes a region's prefix away, and may bring one that divides its parent.
pub fn prefixes_of_a_settled_region()
    ensures { (old new : List Region) (i : ℕ) → IsWellPlaced old → i < length old →
        IsSettled old i new → (parent : ℕ) →
        IsParent (region_prefixes old) (region_at old i).prefix parent →
        HasMoved (region_prefixes old) (region_at old i).prefix (region_at old parent).prefix
        (region_prefixes new) }
{}
