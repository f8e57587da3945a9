//! A directory of prefixes, by what it holds.
ghost use Rattle.std.specs.Prelude.{◌≡◌, ◌≢◌, ◌<◌, ◌≤◌, [], length, max, take, IfSome, MatchOption};
ghost use Rattle.std.specs.Prelude.{OnErr, OnOk};
ghost use Rattle.std.specs.List.{remove};
ghost use Rattle.ml_region.specs.Listing.{Listing, HasSlot, IsListing, IsNewPrefix, IsNewSlot};
ghost use Rattle.ml_region.specs.Listing.{IsPrefixOfSlot, IsSlotOfOwner, IsSlotOfParent};
ghost use Rattle.ml_region.specs.Listing.{IsWithEntry, prefix_at, slot_at};

use ml_bits::{Bits, OutOfMemory};

/// The number of a page.
pub type Slot = usize;

/// Prefixes in order, each with the slot of its page; no two have one slot, and the empty prefix is
/// always there. A place counts from 0 in the order of the prefixes. Every prefix has room for as
/// many bits as `room` says, and no call lessens it. Only `add` and `make_room` take memory.
pub trait Directory: Drop {
    /// The entries in order, and the room that every prefix has.
    ghost listing: { Self → Listing };

    /// The slot of the longest prefix that begins the key.
    fn owner(&self, key: &Bits) -> Slot
        ensures { IsSlotOfOwner (listing self.now).entries key.now.bits result };

    /// The slot of the longest prefix that begins this one and is shorter; none for the empty
    /// prefix alone.
    fn parent(&self, prefix: &Bits) -> Option<Slot>
        ensures { MatchOption result (prefix.now.bits ≡ [])
            (λ slot. IsSlotOfParent (listing self.now).entries prefix.now.bits slot) };

    /// The prefix at a place, and none past the end.
    fn prefix_at(&self, i: usize) -> Option<&Bits>
        ensures prefix { MatchOption result (length (listing self.now).entries ≤ i)
            (λ prefix. (i < length (listing self.now).entries)
            × (prefix.now.bits ≡ prefix_at (listing self.now).entries i)) }
        ensures room { IfSome result (λ prefix. (listing self.now).room ≤ prefix.now.room) }
        ensures listing { IsListing (listing self.now).entries };

    /// Takes in a prefix with a slot; it gets the room that all prefixes have. After an error
    /// nothing has changed.
    fn add(&mut self, prefix: Bits, slot: Slot) -> Result<(), OutOfMemory>
        requires prefix { IsNewPrefix (listing self.old).entries prefix.bits }
        requires slot { IsNewSlot (listing self.old).entries slot }
        ensures ok { OnOk result (IsWithEntry (listing self.old).entries
            (record { prefix = prefix.bits; slot = slot }) (listing self.new).entries) }
        ensures room { OnOk result ((listing self.new).room ≡ (listing self.old).room) }
        ensures err { OnErr result (listing self.new ≡ listing self.old) };

    /// The prefix that has the slot.
    fn prefix_of(&self, slot: Slot) -> &Bits
        requires { HasSlot (listing self.now).entries slot }
        ensures { IsPrefixOfSlot (listing self.now).entries slot result.now.bits };

    /// Takes out the prefix at a place, which is not the empty one.
    fn drop_prefix(&mut self, i: usize)
        requires nested { 0 < i }
        requires within { i < length (listing self.old).entries }
        ensures entries { (listing self.new).entries ≡ remove (listing self.old).entries i }
        ensures room { (listing self.new).room ≡ (listing self.old).room };

    /// Gives every prefix room for so many bits. After an error nothing has changed.
    fn make_room(&mut self, bits: usize) -> Result<(), OutOfMemory>
        ensures entries { (listing self.new).entries ≡ (listing self.old).entries }
        ensures ok { OnOk result ((listing self.new).room ≡ max (listing self.old).room bits) }
        ensures err { OnErr result ((listing self.new).room ≡ (listing self.old).room) };

    /// Puts the first `n` bits of a list, which are no prefix yet, in the place of a prefix that is
    /// not the empty one. Its slot stays.
    fn rename(&mut self, i: usize, from: &Bits, n: usize)
        requires nested { 0 < i }
        requires within { i < length (listing self.old).entries }
        requires some { 0 < n }
        requires bits { n ≤ length from.now.bits }
        requires room { n ≤ (listing self.old).room }
        requires prefix { IsNewPrefix (listing self.old).entries (take n from.now.bits) }
        ensures entries { IsWithEntry (remove (listing self.old).entries i)
            (record { prefix = take n from.now.bits; slot = slot_at (listing self.old).entries i })
            (listing self.new).entries }
        ensures room { (listing self.new).room ≡ (listing self.old).room };
}
