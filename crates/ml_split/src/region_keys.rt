//! The keys of a region, by their numbers.
ghost use Rattle.std.specs.Prelude.{◌≤◌, length};
ghost use Rattle.ml_region.specs.Limits.{page_items};

use crate::keys::{Keys, key_at};
use ml_bits::Bits;
use ml_region::Item;

// The keys of the items of a region, and then a further one if it is given.
#[derive(Drop)]
pub(crate) struct RegionKeys<'a> {
    pub(crate) items: &'a [Item],
    pub(crate) further: Option<&'a Bits>,
    pub(crate) ghost few: { length items.now ≤ page_items },
}

impl Keys for RegionKeys<'_> {
    ghost use Rattle.std.specs.Option.{option_copied};
    ghost use Rattle.ml_region.specs.Regions.{keys_of};
    ghost use Rattle.ml_split.specs.RegionSplits.{keys_with};

    ghost keys = { λ k. keys_with (keys_of k.items.now) (option_copied k.further) };

    fn len(&self) -> usize {
        self.items.len() + usize::from(self.further.is_some())
    }

    fn key(&self, i: usize) -> &Bits {
        if i < self.items.len() {
            return key_at(self.items, i);
        }
        match self.further {
            Some(key) => key,
            None => unreachable!(),
        }
    }
}
