//! The code of a term, as one word of 64 bits.
ghost use Rattle.std.specs.Prelude.{◌≡◌, ◌+◌, ◌-◌, ◌*◌, ◌^◌, ◌<◌, ◌≤◌, IsTrue, length, min};
ghost use Rattle.ml_term.specs.CanonicalBytes.{counted_from_smallest};
ghost use Rattle.ml_term.specs.Codes.{bits, byte_bits, code, pad};
ghost use Rattle.ml_term.specs.Seen.{seen};
ghost use Rattle.ml_term.specs.Valid.{is_in_range, is_valid};

use crate::limits::{INTEGER_OFFSET, MAX_CODED_NAME_BYTES};
use crate::term::Term;

/// An integer counted from the smallest one, below 2 to the power of 62.
pub fn counted_from_smallest(v: i64) -> u64
    requires { IsTrue (is_in_range v) }
    ensures same { result ≡ counted_from_smallest v }
    ensures below { result < 2 ^ 62 }
{
    (v + INTEGER_OFFSET) as u64
}

// A number followed by `width` bits of another.
fn join_bits(high: u64, width: u32, low: u64) -> u64
    requires width { width < 64 }
    requires high { high < 2 ^ (64 - width) }
    requires low { low < 2 ^ width }
    ensures { result ≡ high * 2 ^ width + low }
{
    (high << width) | low
}

// The first bytes of a name in one number, padded with zero bytes.
fn name_word(name: &[u8], count: usize) -> u64
    requires { count ≤ 7 }
    ensures bits { bits (8 * count) result ≡ byte_bits (pad count name.now) }
    ensures below { result < 2 ^ (8 * count) }
{
    let mut word = 0;
    for i in 0..count {
        let byte = name.get(i).copied().unwrap_or(0);
        word = join_bits(word, 8, u64::from(byte));
    }
    word
}

// The length of a name, cut at 63.
fn length_word(name: &[u8]) -> u64
    ensures { result ≡ min (length name.now) 63 }
{
    name.len().min(MAX_CODED_NAME_BYTES) as u64
}

/// The code of a term, the highest bit first. It takes no memory.
pub fn code_word(t: &Term) -> u64
    requires { IsTrue (is_valid (seen t.now)) }
    ensures { bits 64 result ≡ code (seen t.now) }
{
    match t {
        Term::Var(_) => 0,
        Term::Int(v) => join_bits(0b01, 62, counted_from_smallest(*v)),
        Term::Atom(f) => {
            let name = f.as_slice();
            join_bits(
                join_bits(0b10, 56, name_word(name, 7)),
                6,
                length_word(name),
            )
        }
        Term::Cmp(f, ts) => {
            let name = f.as_slice();
            let shape = join_bits(0b11, 8, ts.as_slice().len() as u64);
            join_bits(
                join_bits(shape, 48, name_word(name, 6)),
                6,
                length_word(name),
            )
        }
    }
}
