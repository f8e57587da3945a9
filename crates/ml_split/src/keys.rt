//! The keys of what is to be split, by their numbers, however they are kept.
ghost use Rattle.std.specs.Prelude.{◌≡◌, ◌<◌, Bool, [], List, length, slice_index_or};
ghost use Rattle.ml_region.specs.Regions.{keys_of};

use ml_bits::Bits;
use ml_region::Item;

// A list of keys that can be read at each place.
pub(crate) trait Keys {
    // The keys in their order.
    ghost keys: { Self → List (List Bool) };

    // How many keys there are.
    fn len(&self) -> usize
        ensures { result ≡ length (keys self.now) };

    // The key at place `i`, from 0.
    fn key(&self, i: usize) -> &Bits
        requires { i < length (keys self.now) }
        ensures { result.now.bits ≡ slice_index_or (keys self.now) i [] };
}

// The key of the item at place `i`, from 0.
pub(crate) fn key_at(items: &[Item], i: usize) -> &Bits
    requires { i < length items.now }
    ensures { result.now.bits ≡ slice_index_or (keys_of items.now) i [] }
{
    &items[i].key
}
