//! The keys of two regions that meet, by their numbers.
ghost use Rattle.std.specs.Prelude.{◌≤◌, length};
ghost use Rattle.ml_region.specs.Limits.{page_items};

use crate::keys::{Keys, key_at};
use ml_bits::Bits;
use ml_region::Item;

// The keys of the items of a region, and then those of its parent.
#[derive(Drop)]
pub(crate) struct MeetingKeys<'a> {
    pub(crate) own: &'a [Item],
    pub(crate) above: &'a [Item],
    pub(crate) ghost own_few: { length own.now ≤ page_items },
    pub(crate) ghost above_few: { length above.now ≤ page_items },
}

impl Keys for MeetingKeys<'_> {
    ghost use Rattle.std.specs.Prelude.{◌++◌};
    ghost use Rattle.ml_region.specs.Regions.{keys_of};

    ghost keys = { λ k. keys_of k.own.now ++ keys_of k.above.now };

    fn len(&self) -> usize {
        self.own.len() + self.above.len()
    }

    fn key(&self, i: usize) -> &Bits {
        if i < self.own.len() {
            return key_at(self.own, i);
        }
        key_at(self.above, i - self.own.len())
    }
}
