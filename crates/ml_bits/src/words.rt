//! Words that hold a list of bits, 64 in each, the highest bit first.
ghost use Rattle.std.specs.Prelude.{◌≡◌, ◌≢◌, ℕ, ◌+◌, ◌-◌, ◌*◌, ◌^◌, ◌<◌, ◌≤◌, ◌++◌, length, take};
ghost use Rattle.std.specs.Prelude.{vec_capacity, slice_index};
ghost use Rattle.std.specs.Option.{SomeIff};
ghost use Rattle.std.specs.Ordering.{bool_cmp};
ghost use Rattle.std.specs.Cmp.Lexicographic.{slice_cmp};
ghost use Rattle.ml_bits.specs.BitList.{bits_of, byte_bits};
ghost use Rattle.ml_bits.specs.inside.Packing.{word_bits, packed_bits, IsPacked, Holds};

use std::cmp::Ordering;

// How many bits a word has.
pub(crate) const WORD_BITS: usize = 64;

// How many bits a byte has.
pub(crate) const BYTE_BITS: usize = 8;

// How many bytes a word has.
pub(crate) const WORD_BYTES: usize = WORD_BITS / BYTE_BITS;

// How many bits of the last word are not used, where the words are just enough for `len` bits.
pub(crate) fn spare_bits(len: usize) -> usize
    ensures below { result < 64 }
    ensures left { (words : ℕ) → len ≤ 64 * words → 64 * words < len + 64 →
        result ≡ 64 * words - len }
{
    (WORD_BITS - len % WORD_BITS) % WORD_BITS
}

// How many bits there are with those of so many bytes, if the number fits.
pub(crate) fn len_with(len: usize, bytes: usize) -> Option<usize>
    ensures { SomeIff result (len + 8 * bytes < 2 ^ 64) (len + 8 * bytes) }
{
    let more = bytes.checked_mul(BYTE_BITS)?;
    len.checked_add(more)
}

// Puts the `count` lowest bits of `value` behind the first `len` bits, where the words have room
// for them.
pub(crate) fn append(words: &mut Vec<u64>, len: usize, value: u64, count: usize)
    requires packed { IsPacked words.old.items len }
    requires count { count ≤ 64 }
    requires value { value < 2 ^ count }
    requires fits { len + count < 2 ^ 64 }
    requires reserved { len + count ≤ 64 * vec_capacity words.old }
    ensures held { Holds words.new.items (len + count)
        (packed_bits words.old.items len ++ bits_of count value) }
    ensures capacity { vec_capacity words.new ≡ vec_capacity words.old }
{
    let spare = spare_bits(len);
    if count <= spare {
        fill_last(words, len, value, count);
        return;
    }
    let over = count - spare;
    if spare == 0 {
        start_word(words, value, over);
    } else {
        fill_last(words, len, value >> over, spare);
        start_word(words, value, over);
    }
}

// Puts the `count` lowest bits of `value` into the last word, whose unused bits are enough for
// them.
fn fill_last(words: &mut Vec<u64>, len: usize, value: u64, count: usize)
    requires packed { IsPacked words.old.items len }
    requires count { len + count ≤ 64 * length words.old.items }
    requires value { value < 2 ^ count }
    ensures held { Holds words.new.items (len + count)
        (packed_bits words.old.items len ++ bits_of count value) }
    ensures len { length words.new.items ≡ length words.old.items }
    ensures capacity { vec_capacity words.new ≡ vec_capacity words.old }
{
    if count == 0 {
        return;
    }
    let spare = spare_bits(len);
    let last = words.len() - 1;
    words[last] |= value << (spare - count);
}

// Begins a new word with the `count` lowest bits of `value`, behind words that are full.
fn start_word(words: &mut Vec<u64>, value: u64, count: usize)
    requires some { 0 < count }
    requires count { count ≤ 64 }
    requires reserved { length words.old.items < vec_capacity words.old }
    ensures held { Holds words.new.items (64 * length words.old.items + count)
        (word_bits words.old.items ++ bits_of count value) }
    ensures capacity { vec_capacity words.new ≡ vec_capacity words.old }
{
    words.push_reserved(value << (WORD_BITS - count));
}

// Makes the words the first `len` bits of others.
pub(crate) fn refill(words: &mut Vec<u64>, from: &[u64], len: usize)
    requires within { len ≤ 64 * length from.now }
    requires reserved { len ≤ 64 * vec_capacity words.old }
    ensures held { Holds words.new.items len (packed_bits from.now len) }
    ensures capacity { vec_capacity words.old ≤ vec_capacity words.new }
{
    let used = len.div_ceil(WORD_BITS);
    words.clear();
    match words.extend_from_slice(&from[..used]) {
        Ok(()) => clear_rest(words, len),
        Err(_) => unreachable!(),
    }
}

// Makes the bits behind the first `len` zero, in words that are just enough for these.
fn clear_rest(words: &mut Vec<u64>, len: usize)
    requires enough { len ≤ 64 * length words.old.items }
    requires no_more { 64 * length words.old.items < len + 64 }
    ensures held { Holds words.new.items len (packed_bits words.old.items len) }
    ensures capacity { vec_capacity words.new ≡ vec_capacity words.old }
{
    let spare = spare_bits(len);
    if spare == 0 {
        return;
    }
    let last = words.len() - 1;
    words[last] = words[last] >> spare << spare;
}

// How many first words two lists of words have in common.
pub(crate) fn common_words(first: &[u64], second: &[u64]) -> usize
    ensures within_first { result ≤ length first.now }
    ensures within_second { result ≤ length second.now }
    ensures same { take result first.now ≡ take result second.now }
    ensures apart { result < length first.now → result < length second.now →
        slice_index first.now result ≢ slice_index second.now result }
{
    let shorter = first.len().min(second.len());
    for at in 0..shorter {
        if first[at] != second[at] {
            return at;
        }
    }
    shorter
}

// The order of the bits of words.
pub(crate) fn word_cmp(first: &[u64], second: &[u64]) -> Ordering
    ensures { result ≡ slice_cmp bool_cmp (word_bits first.now) (word_bits second.now) }
{
    first.cmp(&second)
}

// The number whose bits are those of up to eight bytes.
pub(crate) fn number_of(bytes: &[u8]) -> u64
    requires { length bytes.now ≤ 8 }
    ensures below { result < 2 ^ (8 * length bytes.now) }
    ensures bits { bits_of (8 * length bytes.now) result ≡ byte_bits bytes.now }
{
    let mut number = 0;
    for byte in bytes {
        number = number << BYTE_BITS | u64::from(*byte);
    }
    number
}
