//! The limits of regions.
ghost use Rattle.std.specs.Prelude.{◌≡◌};
ghost use Rattle.ml_region.specs.Limits.{max_region_items, min_region_items, page_items};

/// The most items of a region between two calls of a file.
pub const MAX_REGION_ITEMS: usize = 24;

/// A region of fewer items is thin, and goes into its parent when a file is settled.
pub const MIN_REGION_ITEMS: usize = 8;

/// How many items a page has room for: a thin region's join those of its parent before they are
/// split again.
pub const PAGE_ITEMS: usize = MAX_REGION_ITEMS + MIN_REGION_ITEMS - 1;

/// The code's limits are those of the definitions. The function does nothing: its contract says so.
pub fn limits_of_regions()
    ensures most { MAX_REGION_ITEMS ≡ max_region_items }
    ensures fewest { MIN_REGION_ITEMS ≡ min_region_items }
    ensures page { PAGE_ITEMS ≡ page_items }
{}
