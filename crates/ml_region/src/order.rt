//! The order of a bit list and the beginning of another.
ghost use Rattle.std.specs.Prelude.{◌≡◌, ◌≤◌, length, take};
ghost use Rattle.ml_term.specs.Keys.{key_cmp};

use ml_bits::Bits;
use std::cmp::Ordering;

// The order of a bit list and the first `n` bits of a key.
pub(crate) fn cmp_front(list: &Bits, key: &Bits, n: usize) -> Ordering
    requires { n ≤ length key.now.bits }
    ensures { result ≡ key_cmp list.now.bits (take n key.now.bits) }
{
    let common = list.common_len(key);
    if n <= common {
        return list.len().cmp(&n);
    }
    if common == list.len() {
        return Ordering::Less;
    }
    list.bit(common).cmp(&key.bit(common))
}
