//! Places and slots in a directory.
ghost use Rattle.std.specs.Prelude.{◌≡◌, ◌<◌, ◌≤◌, length, take, Contains};
ghost use Rattle.ml_region.specs.Listing.{IsListing, IsSlotOfParent, prefix_at, prefixes_of};
ghost use Rattle.ml_region.specs.Listing.{slot_at};

use crate::directory::{Directory, Slot};
use crate::prefixes::DirectoryPrefixes;
use crate::searches::last_up_to;
use ml_bits::Bits;

// The slot of the prefix at a place: a prefix is its own owner.
pub(crate) fn slot_of<D: Directory>(dir: &D, i: usize) -> Slot
    requires listing { IsListing (D.listing dir.now).entries }
    requires within { i < length (D.listing dir.now).entries }
    ensures { result ≡ slot_at (D.listing dir.now).entries i }
{
    match dir.prefix_at(i) {
        Some(prefix) => dir.owner(prefix),
        None => unreachable!(),
    }
}

// The prefix that is the first `n` bits of a key, among `len` prefixes.
pub(crate) fn prefix_among<'a, D: Directory>(
    dir: &'a D,
    len: usize,
    key: &Bits,
    n: usize,
) -> &'a Bits
    requires listing { IsListing (D.listing dir.now).entries }
    requires len { len ≡ length (D.listing dir.now).entries }
    requires within { n ≤ length key.now.bits }
    requires there { Contains (prefixes_of (D.listing dir.now).entries) (take n key.now.bits) }
    ensures { result.now.bits ≡ take n key.now.bits }
{
    let place = last_up_to(&DirectoryPrefixes { dir, len }, key, n);
    match dir.prefix_at(place) {
        Some(prefix) => prefix,
        None => unreachable!(),
    }
}

// The slot of the parent of the prefix at a place that is not the first.
pub(crate) fn parent_slot<D: Directory>(dir: &D, i: usize) -> Slot
    requires listing { IsListing (D.listing dir.now).entries }
    requires nested { 0 < i }
    requires within { i < length (D.listing dir.now).entries }
    ensures { IsSlotOfParent (D.listing dir.now).entries
        (prefix_at (D.listing dir.now).entries i) result }
{
    let Some(prefix) = dir.prefix_at(i) else {
        unreachable!()
    };
    match dir.parent(prefix) {
        Some(slot) => slot,
        None => unreachable!(),
    }
}
