//! The order of bit lists.
ghost use Rattle.std.specs.Prelude.{◌≡◌, ℕ, ◌<◌, ◌↔◌, false, refl, length, slice_index_or};
ghost use Rattle.std.specs.Ordering.{bool_cmp, eq_by_cmp, as_partial_cmp};
ghost use Rattle.std.specs.Cmp.{eq_by_cmp_equiv, partial_equiv_from_equiv};
ghost use Rattle.std.specs.Cmp.{partial_order_from_total};
ghost use Rattle.std.specs.Cmp.Lexicographic.{slice_cmp};
ghost use Rattle.ml_bits.specs.BitList.{Begins, IsCommonLength, bits_cmp, bits_cmp_total};

use crate::bit_list::Bits;
use crate::words::word_cmp;
use std::cmp::Ordering;

impl Bits {
    /// The order of bit lists: at the first place where they differ 0 comes before 1, and a list
    /// comes before its extensions.
    pub fn cmp(&self, other: &Bits) -> Ordering
        ensures value { result ≡ slice_cmp bool_cmp self.now.bits other.now.bits }
        ensures equal { (result ≡ Ordering.Equal) ↔ (self.now.bits ≡ other.now.bits) }
        ensures extension { Begins self.now.bits other.now.bits →
            length self.now.bits < length other.now.bits → result ≡ Ordering.Less }
        ensures difference { (n : ℕ) → IsCommonLength self.now.bits other.now.bits n →
            n < length self.now.bits → n < length other.now.bits
            → result ≡ bool_cmp (slice_index_or self.now.bits n false)
            (slice_index_or other.now.bits n false) }
    {
        word_cmp(&self.words, &other.words).then(self.len.cmp(&other.len))
    }
}

// Lists with the same bits are equal, whatever room they have.
impl PartialEq for Bits {
    ghost eq = { eq_by_cmp bits_cmp };

    ghost laws = { partial_equiv_from_equiv (eq_by_cmp_equiv bits_cmp_total) };

    fn eq(&self, other: &Bits) -> bool {
        self.cmp(other).is_eq()
    }
}

impl Eq for Bits {
    ghost laws = { eq_by_cmp_equiv bits_cmp_total };
}

impl PartialOrd for Bits {
    ghost partial_cmp = { as_partial_cmp bits_cmp };

    ghost laws = { partial_order_from_total bits_cmp_total };

    fn partial_cmp(&self, other: &Bits) -> Option<Ordering> {
        Some(self.cmp(other))
    }
}

impl Ord for Bits {
    ghost cmp = { bits_cmp };

    ghost total = { bits_cmp_total };

    ghost matches_partial_cmp = { λ x y. refl };

    ghost matches_eq = { λ x y. refl };

    fn cmp(&self, other: &Bits) -> Ordering {
        Bits::cmp(self, other)
    }
}
