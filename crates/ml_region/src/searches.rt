//! Searches by halves among prefixes in rising order.
ghost use Rattle.std.specs.Prelude.{◌≤◌, length, take};
ghost use Rattle.ml_region.specs.Prefixes.{AreRooted, IsLastUpTo, IsOwner};

use crate::order::cmp_front;
use crate::prefixes::Prefixes;
use ml_bits::Bits;

// The place of the last prefix that does not come after the first `n` bits of a key.
pub(crate) fn last_up_to<P: Prefixes>(prefixes: &P, key: &Bits, n: usize) -> usize
    requires rooted { AreRooted (P.prefixes prefixes.now) }
    requires within { n ≤ length key.now.bits }
    ensures { IsLastUpTo (P.prefixes prefixes.now) (take n key.now.bits) result }
{
    let mut low = 0;
    let mut high = prefixes.len();
    'halves: while high - low > 1 {
        let mid = low + (high - low) / 2;
        if cmp_front(prefixes.prefix(mid), key, n).is_gt() {
            high = mid;
        } else {
            low = mid;
        }
    }
    low
}

// The place of the longest prefix that begins the first `n` bits of a key. Where the last prefix up
// to these bits doesn't begin them, no prefix that does is longer than what the two have in common.
pub(crate) fn owner_within<P: Prefixes>(prefixes: &P, key: &Bits, n: usize) -> usize
    requires rooted { AreRooted (P.prefixes prefixes.now) }
    requires within { n ≤ length key.now.bits }
    ensures { IsOwner (P.prefixes prefixes.now) (take n key.now.bits) result }
{
    let mut front = n;
    'shorter: loop {
        let last = last_up_to(prefixes, key, front);
        let prefix = prefixes.prefix(last);
        let common = prefix.common_len(key);
        if common == prefix.len() {
            return last;
        }
        front = common;
    }
}
