//! The first bits of lists: copies of them, and how many two lists have in common.
ghost use Rattle.std.specs.Prelude.{◌≡◌, ℕ, ◌≤◌, ◌↔◌, length, take, IsTrue, IfOk};
ghost use Rattle.ml_bits.specs.BitList.{list_of_bits, Begins, IsCommonLength};

use crate::OutOfMemory;
use crate::bit_list::Bits;
use crate::words::{WORD_BITS, common_words, refill};

impl Bits {
    /// The first `n` bits.
    pub fn prefix(&self, n: usize) -> Result<Bits, OutOfMemory>
        requires { n ≤ length self.now.bits }
        ensures { IfOk result (λ front. front ≡ list_of_bits (take n self.now.bits)) }
    {
        let mut front = Bits::empty(*self.words.allocator());
        front.make_room(n)?;
        front.set_prefix(self, n);
        Ok(front)
    }

    /// Becomes the first `n` bits of another list. It takes no memory, and its room stays.
    pub fn set_prefix(&mut self, from: &Bits, n: usize)
        requires within { n ≤ length from.now.bits }
        requires room { n ≤ self.old.room }
        ensures list { self.new.bits ≡ take n from.now.bits }
        ensures room { self.new.room ≡ self.old.room }
    {
        refill(&mut self.words, &from.words, n);
        self.len = n;
    }

    /// An equal list, which has the same room.
    pub fn copy_of(&self) -> Result<Bits, OutOfMemory>
        ensures { IfOk result (λ copy. copy ≡ self.now) }
    {
        let mut copy = Bits::empty(*self.words.allocator());
        copy.make_room(self.room)?;
        copy.set_prefix(self, self.len);
        Ok(copy)
    }

    /// How many first bits the lists have in common.
    pub fn common_len(&self, other: &Bits) -> usize
        ensures { IsCommonLength self.now.bits other.now.bits result }
    {
        let shorter = self.len.min(other.len);
        let at = common_words(&self.words, &other.words);
        if at == self.words.len() || at == other.words.len() {
            return shorter;
        }
        let alike = (self.words[at] ^ other.words[at]).leading_zeros() as usize;
        WORD_BITS * at + alike.min(shorter - WORD_BITS * at)
    }

    /// Whether the list begins another one. Every list begins itself.
    pub fn is_prefix_of(&self, other: &Bits) -> bool
        ensures { IsTrue result ↔ Begins self.now.bits other.now.bits }
    {
        self.len <= other.len && self.common_len(other) == self.len
    }
}
