//! Prefixes by their places, for the searches by halves.
ghost use Rattle.std.specs.Prelude.{◌≡◌, ◌<◌, Bool, List, length};
ghost use Rattle.ml_region.specs.Listing.{prefixes_of};
ghost use Rattle.ml_region.specs.Prefixes.{bits_at};

use crate::directory::Directory;
use crate::kept::Kept;
use ml_bits::Bits;

// A list of prefixes that can be read at each place.
pub(crate) trait Prefixes {
    // The prefixes in their order.
    ghost prefixes: { Self → List (List Bool) };

    // How many prefixes there are.
    fn len(&self) -> usize
        ensures { result ≡ length (prefixes self.now) };

    // The prefix at place `i`, from 0.
    fn prefix(&self, i: usize) -> &Bits
        requires { i < length (prefixes self.now) }
        ensures { result.now.bits ≡ bits_at (prefixes self.now) i };
}

// The prefixes of a directory, with their number.
#[derive(Drop)]
pub(crate) struct DirectoryPrefixes<'a, D: Directory> {
    pub(crate) dir: &'a D,
    pub(crate) len: usize,
    pub(crate) ghost all: { len ≡ length (D.listing dir.now).entries },
}

impl<D: Directory> Prefixes for DirectoryPrefixes<'_, D> {
    ghost prefixes = { λ p. prefixes_of (D.listing p.dir.now).entries };

    fn len(&self) -> usize {
        self.len
    }

    fn prefix(&self, i: usize) -> &Bits {
        match self.dir.prefix_at(i) {
            Some(prefix) => prefix,
            None => unreachable!(),
        }
    }
}

impl Prefixes for Vec<Kept> {
    ghost use Rattle.ml_region.specs.inside.Kept.{kept_entries};

    ghost prefixes = { λ kept. prefixes_of (kept_entries kept.items) };

    fn len(&self) -> usize {
        self.len()
    }

    fn prefix(&self, i: usize) -> &Bits {
        &self[i].prefix
    }
}
