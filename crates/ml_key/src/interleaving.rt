//! Words whose bits stand in turn: first the highest bit of each, then the next, and so on.
ghost use Rattle.std.specs.Prelude.{◌≡◌, ◌+◌, ◌*◌, ◌^◌, ◌<◌, ◌≤◌, length, map};
ghost use Rattle.ml_key.specs.inside.Extension.{extend_list};
ghost use Rattle.ml_key.specs.inside.Turns.{bit_of};
ghost use Rattle.ml_term.specs.Codes.{bits};
ghost use Rattle.ml_term.specs.Keys.{interleave};

use crate::extend::append;
use crate::limits::{CODE_BITS, MAX_KEYED_PLACES};
use ml_bits::Bits;

// The bits that some words have at one place, counted from the lowest bit, as a number: the first
// word's bit is its highest.
fn row_of(words: &[u64], place: usize) -> u64
    requires few { length words.now ≤ MAX_KEYED_PLACES }
    requires place { place < 64 }
    ensures below { result < 2 ^ length words.now }
    ensures bits { bits (length words.now) result ≡ map (bit_of place) words.now }
{
    let mut row = 0;
    for word in words {
        row = row << 1 | *word >> place & 1;
    }
    row
}

// Puts the `rows` lowest bits of each word at the end of a list that has room for them: first the
// highest of these bits of each word, then the next of each, and so on.
pub(crate) fn append_in_turn(list: &mut Bits, words: &[u64], rows: usize)
    requires few { length words.now ≤ MAX_KEYED_PLACES }
    requires rows { rows ≤ CODE_BITS }
    requires room { length list.old.bits + rows * length words.now ≤ list.old.room }
    ensures { list.new ≡ extend_list list.old (interleave rows (map (bits rows) words.now)) }
{
    for row in 0..rows {
        append(list, row_of(words, rows - 1 - row), words.len());
    }
}
