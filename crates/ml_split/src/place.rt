//! The rule of a split as code: it goes from one place where keys part to the next, by comparing
//! keys with one of them. It takes no memory.
ghost use Rattle.std.specs.Prelude.{◌≡◌, ◌+◌, ◌*◌, ◌^◌, ◌<◌, ◌≤◌, [], IsTrue, length};
ghost use Rattle.std.specs.Prelude.{slice_index_or, take};
ghost use Rattle.std.specs.List.{All};
ghost use Rattle.ml_bits.specs.BitList.{Begins};
ghost use Rattle.ml_split.specs.Splitting.{AreApart, IsSplit, count_under, fuller_half, half};
ghost use Rattle.ml_term.specs.Patterns.{begins};

use crate::Keys;
use crate::limits::MAX_SPLIT_KEYS;
use ml_bits::Bits;

// Where keys are split: the new prefix is the first `bits` bits of the key at place `key`.
#[derive(Clone, Copy, Debug, PartialEq, Eq)]
pub(crate) struct SplitPlace {
    pub(crate) key: usize,
    pub(crate) bits: usize,
}

// The keys that go on with one bit behind a prefix: how many there are, and the place of one, if
// there is one.
#[derive(Clone, Copy)]
struct Half {
    count: usize,
    key: usize,
}

// Whether a key begins with the first `fork` bits of the guide and then has this bit.
fn goes_on(key: &Bits, guide: &Bits, fork: usize, bit: bool) -> bool
    requires { fork ≤ length guide.now.bits }
    ensures { result ≡ begins (half (take fork guide.now.bits) bit) key.now.bits }
{
    if guide.common_len(key) < fork {
        return false;
    }
    fork < key.len() && key.bit(fork) == bit
}

// The keys that begin with the first `fork` bits of the guide and then have this bit.
fn half_of<K: Keys>(keys: &K, guide: &Bits, fork: usize, bit: bool) -> Half
    requires { fork ≤ length guide.now.bits }
    ensures count { result.count ≡ count_under (half (take fork guide.now.bits) bit)
        (K.keys keys.now) }
    ensures place { 0 < result.count → result.key < length (K.keys keys.now) }
    ensures begins { 0 < result.count →
        IsTrue (begins (half (take fork guide.now.bits) bit)
        (slice_index_or (K.keys keys.now) result.key [])) }
{
    let mut half = Half { count: 0, key: 0 };
    for i in 0..keys.len() {
        if goes_on(keys.key(i), guide, fork, bit) {
            half.count += 1;
            half.key = i;
        }
    }
    half
}

// Those of the half with more keys behind the first `fork` bits of the guide, and of the 0 half
// where they are equal.
fn fuller_half_of<K: Keys>(keys: &K, guide: &Bits, fork: usize) -> Half
    requires { fork ≤ length guide.now.bits }
    ensures count { let front = take fork guide.now.bits in
        result.count ≡ count_under (half front (fuller_half front (K.keys keys.now)))
        (K.keys keys.now) }
    ensures place { 0 < result.count → result.key < length (K.keys keys.now) }
    ensures begins { let front = take fork guide.now.bits in 0 < result.count →
        IsTrue (begins (half front (fuller_half front (K.keys keys.now)))
        (slice_index_or (K.keys keys.now) result.key [])) }
{
    let zeros = half_of(keys, guide, fork, false);
    let ones = half_of(keys, guide, fork, true);
    if zeros.count < ones.count {
        ones
    } else {
        zeros
    }
}

// How many bits those keys have in common that begin with the first `bits` bits of the guide.
fn fork_of<K: Keys>(keys: &K, guide: &Bits, bits: usize) -> usize
    requires { bits ≤ length guide.now.bits }
    ensures from { bits ≤ result }
    ensures within { result ≤ length guide.now.bits }
    ensures fits { length guide.now.bits < 2 ^ 64 }
    ensures count { count_under (take result guide.now.bits) (K.keys keys.now)
        ≡ count_under (take bits guide.now.bits) (K.keys keys.now) }
{
    let mut fork = guide.len();
    for i in 0..keys.len() {
        let common = guide.common_len(keys.key(i));
        if bits <= common && common < fork {
            fork = common;
        }
    }
    fork
}

// Where keys are split that begin with a prefix. It takes no memory.
pub(crate) fn split_place<K: Keys>(keys: &K, prefix: &Bits) -> SplitPlace
    requires some { 1 < length (K.keys keys.now) }
    requires few { length (K.keys keys.now) ≤ MAX_SPLIT_KEYS }
    requires apart { AreApart (K.keys keys.now) }
    requires begin { All (Begins prefix.now.bits) (K.keys keys.now) }
    ensures place { result.key < length (K.keys keys.now) }
    ensures longer { length prefix.now.bits < result.bits }
    ensures within { result.bits ≤ length (slice_index_or (K.keys keys.now) result.key []) }
    ensures split { IsSplit (K.keys keys.now) prefix.now.bits
        (take result.bits (slice_index_or (K.keys keys.now) result.key [])) }
{
    let mut guide = 0;
    let mut bits = prefix.len();
    'on: loop {
        let fork = fork_of(keys, keys.key(guide), bits);
        let half = fuller_half_of(keys, keys.key(guide), fork);
        bits = fork + 1;
        guide = half.key;
        if 3 * half.count <= 2 * keys.len() {
            return SplitPlace { key: guide, bits };
        }
    }
}
