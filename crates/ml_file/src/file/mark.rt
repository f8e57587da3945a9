//! Items that are marked and kept.
ghost use Rattle.std.specs.Prelude.{◌≡◌};
ghost use Rattle.ml_file.specs.Files.{IsHeld};
ghost use Rattle.ml_file.specs.Keeping.{HasKept};
ghost use Rattle.ml_file.specs.Marking.{HasMark};
ghost use Rattle.ml_region.specs.declared.item.Item.{Item};

use crate::file::BangFile;
use ml_bits::Bits;
use ml_region::Id;

impl BangFile {
    /// Sets whether the item that has a key is committed, and where it came from. It takes no
    /// memory.
    pub fn mark(&mut self, key: &Bits, committed: bool, id: Id)
        requires { (x : Item) × IsHeld self.old.regions key.now.bits x }
        ensures marked { HasMark self.old.regions key.now.bits committed id self.new.regions }
        ensures others { self.new ≡ record self.old { regions = self.new.regions } }
    {
        let _well_placed = self.regions.len();
        self.regions.mark(key, committed, id);
    }

    /// The item that has a key is committed by the entry at a place of the history; the number of
    /// its change stays. It takes no memory.
    pub fn keep(&mut self, key: &Bits, place: u32)
        requires { (x : Item) × IsHeld self.old.regions key.now.bits x }
        ensures kept { HasKept self.old.regions key.now.bits place self.new.regions }
        ensures others { self.new ≡ record self.old { regions = self.new.regions } }
    {
        let _well_placed = self.regions.len();
        self.regions.keep(key, place);
    }
}
