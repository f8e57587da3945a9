//! A directory that is one sorted vector.
ghost use Rattle.std.specs.Prelude.{◌≡◌, IfOk};
ghost use Rattle.ml_region.specs.Listing.{only_root};

use crate::directory::{Directory, Slot};
use crate::kept::{Kept, give_room, place_of_slot};
use crate::searches::{last_up_to, owner_within};
use ml_bits::{Bits, OutOfMemory};
use std::alloc::Global;
use std::marker::Model;

/// The prefixes of a directory as one vector in order. All searches go by halves but that of
/// `prefix_of`, which looks through all prefixes.
#[derive(Drop)]
pub struct SortedDir {
    kept: Vec<Kept>,
    room: usize,
}

impl Model for SortedDir {
    ghost use Rattle.ml_region.specs.inside.Kept.{kept_entries, IsKept};
    ghost use Rattle.ml_region.specs.Listing.{Listing};

    ghost Value = { Listing };

    ghost view = { λ d. record { entries = kept_entries d.kept.items; room = d.room } };

    ghost invariant = { λ d. IsKept d.kept.items d.room };
}

impl SortedDir {
    /// The empty prefix alone, with slot 0.
    pub fn new(alloc: Global) -> Result<SortedDir, OutOfMemory>
        ensures { IfOk result (λ dir. dir ≡ record { entries = only_root; room = 0 }) }
    {
        let mut kept = Vec::new(alloc);
        kept.push(Kept {
            prefix: Bits::empty(alloc),
            slot: 0,
        })?;
        Ok(SortedDir { kept, room: 0 })
    }
}

impl Directory for SortedDir {
    ghost listing = { λ d. d };

    fn owner(&self, key: &Bits) -> Slot {
        let i = owner_within(&self.kept, key, key.len());
        self.kept[i].slot
    }

    fn parent(&self, prefix: &Bits) -> Option<Slot> {
        if prefix.is_empty() {
            return None;
        }
        let i = owner_within(&self.kept, prefix, prefix.len() - 1);
        Some(self.kept[i].slot)
    }

    fn prefix_at(&self, i: usize) -> Option<&Bits> {
        if i < self.kept.len() {
            Some(&self.kept[i].prefix)
        } else {
            None
        }
    }

    fn add(&mut self, prefix: Bits, slot: Slot) -> Result<(), OutOfMemory> {
        let mut prefix = prefix;
        prefix.make_room(self.room)?;
        let place = last_up_to(&self.kept, &prefix, prefix.len()) + 1;
        self.kept.insert(place, Kept { prefix, slot })?;
        Ok(())
    }

    fn prefix_of(&self, slot: Slot) -> &Bits {
        let i = place_of_slot(&self.kept, slot);
        &self.kept[i].prefix
    }

    fn drop_prefix(&mut self, i: usize) {
        let _gone = self.kept.remove(i);
    }

    fn make_room(&mut self, bits: usize) -> Result<(), OutOfMemory> {
        if bits > self.room {
            give_room(&mut self.kept, bits)?;
            self.room = bits;
        }
        Ok(())
    }

    fn rename(&mut self, i: usize, from: &Bits, n: usize) {
        let mut renamed = self.kept.remove(i);
        renamed.prefix.set_prefix(from, n);
        let place = last_up_to(&self.kept, from, n) + 1;
        match self.kept.insert(place, renamed) {
            Ok(()) => (),
            Err(_) => unreachable!(),
        }
    }
}
