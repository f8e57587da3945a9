//! Items that move from one page to another.
ghost use Rattle.std.specs.Prelude.{◌≡◌, ◌≢◌, ◌+◌, ◌<◌, ◌≤◌, Bool, List, [], ◌++◌, length};
ghost use Rattle.std.specs.Prelude.{slice_set, Contains};
ghost use Rattle.std.specs.List.{remove};
ghost use Rattle.ml_region.specs.Changes.{items_below, items_beside};
ghost use Rattle.ml_region.specs.inside.Moves.{IsMoved, IsParted, IsPoured};
ghost use Rattle.ml_region.specs.Prefixes.{IsRising};
ghost use Rattle.ml_region.specs.Regions.{keys_of};
ghost use Rattle.ml_region.specs.inside.Stored.{page_at};

use crate::limits::PAGE_ITEMS;
use crate::page::Page;
use ml_bits::Bits;

// Moves an item to the end of another page.
fn move_to_end(pages: &mut [Page], from: usize, j: usize, to: usize)
    requires from { from < length pages.old }
    requires to { to < length pages.old }
    requires apart { from ≢ to }
    requires item { j < length (page_at pages.old from) }
    requires few { length (page_at pages.old to) < PAGE_ITEMS }
    ensures { IsMoved pages.old from j to pages.new }
{
    let item = pages[from].take(j);
    let end = pages[to].len();
    pages[to].put(end, item);
}

// Moves the items whose keys begin with a prefix to another page, which has none.
pub(crate) fn move_below(pages: &mut [Page], from: usize, to: usize, prefix: &Bits)
    requires from { from < length pages.old }
    requires to { to < length pages.old }
    requires apart { from ≢ to }
    requires few { length (page_at pages.old from) ≤ PAGE_ITEMS }
    requires empty { page_at pages.old to ≡ [] }
    ensures { pages.new ≡ slice_set (slice_set pages.old from
        (items_beside prefix.now.bits (page_at pages.old from))) to
        (items_below prefix.now.bits (page_at pages.old from)) }
{
    let mut left = pages[from].len();
    let mut j = 0;
    'each: while left > 0 {
        if prefix.is_prefix_of(&pages[from].item(j).key) {
            move_to_end(pages, from, j, to);
        } else {
            j += 1;
        }
        left -= 1;
    }
}

// Moves all items of a page to another, each to its place in key order.
pub(crate) fn pour(pages: &mut [Page], from: usize, to: usize)
    requires from { from < length pages.old }
    requires to { to < length pages.old }
    requires apart { from ≢ to }
    requires few { length (page_at pages.old to) + length (page_at pages.old from) ≤ PAGE_ITEMS }
    requires rising { IsRising (keys_of (page_at pages.old to)) }
    requires from_rising { IsRising (keys_of (page_at pages.old from)) }
    requires different { (key : List Bool) → Contains (keys_of (page_at pages.old from)) key
        → Contains (keys_of (page_at pages.old to)) key → ⊥ }
    ensures { IsPoured pages.old from to pages.new }
{
    'each: loop {
        match pages[from].pop() {
            Some(item) => {
                let j = pages[to].first_from(&item.key);
                pages[to].put(j, item);
            }
            None => return,
        }
    }
}

// Moves all items of a page to another, each to its place in key order, and those whose keys begin
// with a prefix back.
pub(crate) fn pour_and_part(pages: &mut [Page], from: usize, to: usize, prefix: &Bits)
    requires from { from < length pages.old }
    requires to { to < length pages.old }
    requires apart { from ≢ to }
    requires few { length (page_at pages.old to) + length (page_at pages.old from) ≤ PAGE_ITEMS }
    requires rising { IsRising (keys_of (page_at pages.old to)) }
    requires from_rising { IsRising (keys_of (page_at pages.old from)) }
    requires different { (key : List Bool) → Contains (keys_of (page_at pages.old from)) key
        → Contains (keys_of (page_at pages.old to)) key → ⊥ }
    ensures { IsParted pages.old from to prefix.now.bits pages.new }
{
    pour(pages, from, to);
    move_below(pages, to, from, prefix);
}
