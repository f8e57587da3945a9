//! A list of bits and its room.
ghost use Rattle.std.specs.Prelude.{◌≡◌, ℕ, ◌+◌, ◌*◌, ◌^◌, ◌<◌, ◌≤◌, ◌↔◌, [], ◌∷◌, false, length};
ghost use Rattle.std.specs.Prelude.{take, max, IsTrue, IfOk, OnOk, OnErr, slice_index_or};
ghost use Rattle.ml_bits.specs.BitList.{bits_of, byte_bits, list_of_bits, append_bits};

use crate::OutOfMemory;
use crate::words::{BYTE_BITS, WORD_BITS, WORD_BYTES, append, len_with, number_of};
use std::alloc::Global;
use std::marker::Model;

/// A list of bits, with the room that it was given: how many bits it holds before it takes memory.
/// The room is never below the length.
#[derive(Debug, Drop)]
pub struct Bits {
    pub(crate) words: Vec<u64>,
    pub(crate) len: usize,
    pub(crate) room: usize,
}

impl Model for Bits {
    ghost use Rattle.std.specs.Prelude.{vec_capacity};
    ghost use Rattle.ml_bits.specs.BitList.{BitList};
    ghost use Rattle.ml_bits.specs.inside.Packing.{packed_bits, IsStored};

    ghost Value = { BitList };

    ghost view = { λ b. record { bits = packed_bits b.words.items b.len; room = b.room } };

    ghost invariant = { λ b. IsStored b.words.items b.len b.room (vec_capacity b.words) };
}

impl Bits {
    /// The empty list, with no room. It takes no memory.
    pub fn empty(alloc: Global) -> Bits
        ensures { result ≡ list_of_bits [] }
    {
        Bits {
            words: Vec::new(alloc),
            len: 0,
            room: 0,
        }
    }

    /// The first `count` bits of some bytes, the highest bit of each byte first.
    pub fn from_bytes(alloc: Global, bytes: &[u8], count: usize) -> Result<Bits, OutOfMemory>
        requires { count ≤ 8 * length bytes.now }
        ensures { IfOk result (λ list. list ≡ list_of_bits (take count (byte_bits bytes.now))) }
    {
        let mut list = Bits::empty(alloc);
        list.make_room(count)?;
        let whole = count / BYTE_BITS;
        list.push_bytes(&bytes[..whole])?;
        let rest = count % BYTE_BITS;
        if rest == 0 {
            return Ok(list);
        }
        list.push_bits(u64::from(bytes[whole] >> (BYTE_BITS - rest)), rest)?;
        Ok(list)
    }

    /// How many bits the list has.
    pub fn len(&self) -> usize
        ensures length { result ≡ length self.now.bits }
        ensures within_room { result ≤ self.now.room }
    {
        self.len
    }

    /// Whether the list has no bit.
    pub fn is_empty(&self) -> bool
        ensures { IsTrue result ↔ (self.now.bits ≡ []) }
    {
        self.len == 0
    }

    /// Whether the bit at place `i`, from 0, is 1.
    pub fn bit(&self, i: usize) -> bool
        requires { i < length self.now.bits }
        ensures { result ≡ slice_index_or self.now.bits i false }
    {
        self.words[i / WORD_BITS] >> (WORD_BITS - 1 - i % WORD_BITS) & 1 == 1
    }

    /// Gives the list room for `bits` bits in all, counting those that it has. After an error
    /// nothing has changed.
    pub fn make_room(&mut self, bits: usize) -> Result<(), OutOfMemory>
        ensures list { self.new.bits ≡ self.old.bits }
        ensures ok { OnOk result (self.new.room ≡ max self.old.room bits) }
        ensures err { OnErr result (self.new ≡ self.old) }
        ensures full { OnErr result (self.old.room < bits) }
    {
        if bits > self.room {
            let words = bits.div_ceil(WORD_BITS);
            self.words.reserve(words.saturating_sub(self.words.len()))?;
            self.room = bits;
        }
        Ok(())
    }

    /// Puts a bit at the end. After an error nothing has changed.
    pub fn push(&mut self, bit: bool) -> Result<(), OutOfMemory>
        ensures ok { OnOk result (self.new ≡ append_bits self.old (bit ∷ [])) }
        ensures err { OnErr result (self.new ≡ self.old) }
        ensures full { OnErr result (self.old.room < length self.old.bits + 1) }
    {
        self.push_bits(u64::from(bit), 1)
    }

    /// Puts the `count` lowest bits of a number at the end, the highest of them first. After an
    /// error nothing has changed.
    pub fn push_bits(&mut self, value: u64, count: usize) -> Result<(), OutOfMemory>
        requires count { count ≤ 64 }
        requires value { value < 2 ^ count }
        ensures ok { OnOk result (self.new ≡ append_bits self.old (bits_of count value)) }
        ensures err { OnErr result (self.new ≡ self.old) }
        ensures full { OnErr result (self.old.room < length self.old.bits + count) }
    {
        let Some(len) = self.len.checked_add(count) else {
            return Err(OutOfMemory);
        };
        self.make_room(len)?;
        append(&mut self.words, self.len, value, count);
        self.len = len;
        Ok(())
    }

    /// Puts the bits of some bytes at the end, the highest bit of each byte first. After an error
    /// nothing has changed.
    pub fn push_bytes(&mut self, bytes: &[u8]) -> Result<(), OutOfMemory>
        ensures ok { OnOk result (self.new ≡ append_bits self.old (byte_bits bytes.now)) }
        ensures err { OnErr result (self.new ≡ self.old) }
        ensures full { OnErr result (self.old.room < length self.old.bits + 8 * length bytes.now) }
    {
        let Some(len) = len_with(self.len, bytes.len()) else {
            return Err(OutOfMemory);
        };
        self.make_room(len)?;
        self.push_reserved(bytes);
        Ok(())
    }

    // Puts the bits of some bytes at the end of a list that has room for them.
    fn push_reserved(&mut self, bytes: &[u8])
        requires { length self.old.bits + 8 * length bytes.now ≤ self.old.room }
        ensures { self.new ≡ append_bits self.old (byte_bits bytes.now) }
    {
        let mut rest = bytes;
        while !rest.is_empty() {
            let (front, back) = rest.split_at(rest.len().min(WORD_BYTES));
            match self.push_bits(number_of(front), BYTE_BITS * front.len()) {
                Ok(()) => rest = back,
                Err(_) => unreachable!(),
            }
        }
    }
}
