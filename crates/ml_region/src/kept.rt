//! The sorted vector of a directory.
ghost use Rattle.std.specs.Prelude.{◌≡◌, ◌<◌, ℕ, length, OnErr, OnOk};
ghost use Rattle.ml_region.specs.inside.Kept.{HaveRoom, kept_entries};
ghost use Rattle.ml_region.specs.Listing.{HasSlot, slot_at};

use crate::directory::Slot;
use ml_bits::{Bits, OutOfMemory};

// A prefix with the slot of its page.
#[derive(Drop)]
pub(crate) struct Kept {
    pub(crate) prefix: Bits,
    pub(crate) slot: Slot,
}

// The place of the prefix that has a slot. It looks through the whole vector.
pub(crate) fn place_of_slot(kept: &[Kept], slot: Slot) -> usize
    requires { HasSlot (kept_entries kept.now) slot }
    ensures within { result < length kept.now }
    ensures same { slot_at (kept_entries kept.now) result ≡ slot }
{
    for (place, entry) in kept.iter().enumerate() {
        if entry.slot == slot {
            return place;
        }
    }
    unreachable!()
}

// Gives each prefix room for so many bits. After an error some may have more room than before.
pub(crate) fn give_room(kept: &mut [Kept], bits: usize) -> Result<(), OutOfMemory>
    ensures entries { kept_entries kept.new ≡ kept_entries kept.old }
    ensures ok { OnOk result (HaveRoom bits kept.new) }
    ensures rooms { (room : ℕ) → HaveRoom room kept.old → HaveRoom room kept.new }
{
    for entry in kept.iter_mut() {
        entry.prefix.make_room(bits)?;
    }
    Ok(())
}
