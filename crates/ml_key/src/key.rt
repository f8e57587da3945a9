//! The key of an item.
ghost use Rattle.std.specs.Prelude.{◌≡◌, ℕ, ◌+◌, ◌*◌, ◌<◌, ◌≤◌, ◌&&◌, IfOk, IsTrue, length, map};
ghost use Rattle.std.specs.Prelude.{nat_le, take};
ghost use Rattle.std.specs.List.{list_all};
ghost use Rattle.ml_bits.specs.BitList.{list_of_bits};
ghost use Rattle.ml_key.specs.inside.Extension.{extend_list};
ghost use Rattle.ml_key.specs.ItemKeys.{head_bits, item_head, item_key, item_tail};
ghost use Rattle.ml_key.specs.inside.PatternCodes.{word_bits};
ghost use Rattle.ml_term.specs.Codes.{code};
ghost use Rattle.ml_term.specs.Keys.{argument, arguments};
ghost use Rattle.ml_term.specs.Seen.{all_seen, seen};
ghost use Rattle.ml_term.specs.Tree.{arity, nodes, trees_of};
ghost use Rattle.ml_term.specs.Valid.{are_valid, is_valid};

use crate::canonical::{append_term, canonical_len};
use crate::extend::append;
use crate::interleaving::append_in_turn;
use crate::limits::{BYTE_BITS, CODE_BITS, MAX_KEYED_PLACES, MAX_NODE_BYTES, NUMBER_BITS};
use ml_bits::{Bits, OutOfMemory};
use ml_term::{Decl, Kind, MAX_TERM_NODES, Term, argument_at, arguments_of, code_word};
use std::alloc::Global;

// The term of the declared predicate in an item: a tuple itself, and the head of a clause.
fn item_head(kind: Kind, t: &Term) -> &Term
    requires valid { IsTrue (is_valid (seen t.now)) }
    requires has_arguments { 1 ≤ arity (arguments (item_head kind (seen t.now))) }
    ensures same { seen result.now ≡ item_head kind (seen t.now) }
    ensures valid { IsTrue (is_valid (seen result.now)) }
{
    match kind {
        Kind::Relation => t,
        Kind::Clauses => argument_at(arguments_of(t), 1),
    }
}

// The codes of the arguments that keys name, in the order of the keys.
fn codes_of(keys: &[u8], ts: &[Term]) -> [u64; MAX_KEYED_PLACES]
    requires few { length keys.now ≤ MAX_KEYED_PLACES }
    requires keys { IsTrue (list_all (λ k. nat_le 1 k && nat_le k (length ts.now)) keys.now) }
    requires valid { IsTrue (are_valid (trees_of (all_seen ts.now))) }
    ensures { map word_bits (take (length keys.now) result)
        ≡ map code (map (λ k. argument k (trees_of (all_seen ts.now))) keys.now) }
{
    let mut codes = [0; MAX_KEYED_PLACES];
    for (place, key) in keys.iter().enumerate() {
        codes[place] = code_word(argument_at(ts, *key));
    }
    codes
}

// Puts the bits of the keyed arguments' codes at the end of a list that has room for them.
fn append_head(list: &mut Bits, keys: &[u8], head: &Term)
    requires few { length keys.now ≤ MAX_KEYED_PLACES }
    requires keys { IsTrue (list_all
        (λ k. nat_le 1 k && nat_le k (arity (arguments (seen head.now)))) keys.now) }
    requires valid { IsTrue (is_valid (seen head.now)) }
    requires room { length list.old.bits + 64 * length keys.now ≤ list.old.room }
    ensures { list.new ≡ extend_list list.old (head_bits keys.now (seen head.now)) }
{
    let codes = codes_of(keys, arguments_of(head));
    append_in_turn(list, &codes[..keys.len()], CODE_BITS);
}

// How many bits stand in an item's key behind the codes.
fn tail_len(kind: Kind, t: &Term) -> usize
    requires valid { IsTrue (is_valid (seen t.now)) }
    requires small { nodes (seen t.now) ≤ MAX_TERM_NODES }
    ensures same { (number : ℕ) → result ≡ length (item_tail kind (seen t.now) number) }
    ensures small { result ≤ 8 * (MAX_NODE_BYTES * MAX_TERM_NODES) }
{
    match kind {
        Kind::Relation => BYTE_BITS * canonical_len(t),
        Kind::Clauses => NUMBER_BITS,
    }
}

// Puts the end of an item's key at the end of a list that has room for it.
fn append_tail(list: &mut Bits, kind: Kind, t: &Term, number: u64)
    requires valid { IsTrue (is_valid (seen t.now)) }
    requires room { length list.old.bits + length (item_tail kind (seen t.now) number)
        ≤ list.old.room }
    ensures { list.new ≡ extend_list list.old (item_tail kind (seen t.now) number) }
{
    match kind {
        Kind::Relation => append_term(list, t),
        Kind::Clauses => append(list, number, NUMBER_BITS),
    }
}

/// The key of an item of a declared predicate: the bits of its keyed arguments' codes in turn, and
/// then a tuple's canonical bytes or a clause's storage number. The number counts for a clause
/// alone, which is a term `:-`(Head, Body). The key has room for its bits alone, and all its memory
/// is taken before the first bit is written.
pub fn key_of(alloc: Global, decl: &Decl, t: &Term, number: u64) -> Result<Bits, OutOfMemory>
    requires arity { arity (arguments (item_head decl.now.kind (seen t.now)))
        ≡ decl.now.pred.arity }
    requires valid { IsTrue (is_valid (seen t.now)) }
    requires small { nodes (seen t.now) ≤ MAX_TERM_NODES }
    ensures { IfOk result (λ key. key
        ≡ list_of_bits (item_key decl.now.kind decl.now.keys (seen t.now) number)) }
{
    let head = item_head(decl.kind, t);
    let keys = decl.keys.as_slice();
    let mut key = Bits::empty(alloc);
    key.make_room(CODE_BITS * keys.len() + tail_len(decl.kind, t))?;
    append_head(&mut key, keys, head);
    append_tail(&mut key, decl.kind, t, number);
    Ok(key)
}
