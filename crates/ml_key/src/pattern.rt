//! Patterns: what a head asks of the keyed places, and which prefixes may begin the key of an item
//! that it meets.
ghost use Rattle.std.specs.Prelude.{◌≡◌, ◌+◌, ◌*◌, ◌<◌, ◌≤◌, ◌&&◌, ◌||◌, IsTrue, length, map};
ghost use Rattle.std.specs.Prelude.{nat_le, take};
ghost use Rattle.std.specs.List.{list_all};
ghost use Rattle.ml_key.specs.inside.PatternCodes.{asked_bits, begins_code, is_variable};
ghost use Rattle.ml_key.specs.inside.PatternCodes.{place_may_hold};
ghost use Rattle.ml_term.specs.Codes.{bits};
ghost use Rattle.ml_term.specs.Keys.{argument, arguments};
ghost use Rattle.ml_term.specs.Patterns.{asked_code, begins, column, may_hold, pattern_of};
ghost use Rattle.ml_term.specs.Seen.{all_seen, seen};
ghost use Rattle.ml_term.specs.Tree.{arity, trees_of};
ghost use Rattle.ml_term.specs.Valid.{are_valid, is_valid};

use crate::limits::{CODE_BITS, MAX_KEYED_PLACES, VARIABLE_CODE};
use ml_bits::Bits;
use ml_term::{Decl, Term, argument_at, arguments_of, code_word};
use std::marker::Model;

/// For each keyed place a code, or nothing where any term may stand. Contracts see the list. It
/// takes no memory.
#[derive(Drop)]
pub struct Pattern {
    codes: [Option<u64>; MAX_KEYED_PLACES],
    len: usize,
}

impl Model for Pattern {
    ghost use Rattle.std.specs.Prelude.{Bool, List, Option, ◌≤◌, map, take};
    ghost use Rattle.ml_key.specs.inside.PatternCodes.{asked_bits};

    ghost Value = { List (Option (List Bool)) };

    ghost view = { λ p. map asked_bits (take p.len p.codes) };

    ghost invariant = { λ p. p.len ≤ 8 };
}

impl Pattern {
    // The codes that are asked for.
    fn codes(&self) -> &[Option<u64>]
        ensures same { map asked_bits result.now ≡ self.now }
        ensures few { length result.now ≤ MAX_KEYED_PLACES }
    {
        &self.codes[..self.len]
    }
}

// Whether a term is a variable.
fn is_variable(t: &Term) -> bool
    ensures { result ≡ is_variable (seen t.now) }
{
    matches!(t, Term::Var(_))
}

// What a pattern asks of the place where a term stands: nothing for a variable, and else the term's
// code.
fn asked_word(t: &Term) -> Option<u64>
    requires { IsTrue (is_valid (seen t.now)) }
    ensures { asked_bits result ≡ asked_code (seen t.now) }
{
    if is_variable(t) {
        None
    } else {
        Some(code_word(t))
    }
}

// What a pattern asks of the arguments that keys name, in the order of the keys.
fn asked_words(keys: &[u8], ts: &[Term]) -> [Option<u64>; MAX_KEYED_PLACES]
    requires few { length keys.now ≤ MAX_KEYED_PLACES }
    requires keys { IsTrue (list_all (λ k. nat_le 1 k && nat_le k (length ts.now)) keys.now) }
    requires valid { IsTrue (are_valid (trees_of (all_seen ts.now))) }
    ensures { map asked_bits (take (length keys.now) result)
        ≡ map asked_code (map (λ k. argument k (trees_of (all_seen ts.now))) keys.now) }
{
    let mut words = [None; MAX_KEYED_PLACES];
    for (place, key) in keys.iter().enumerate() {
        words[place] = asked_word(argument_at(ts, *key));
    }
    words
}

/// The pattern of a head of the declared predicate: at each keyed place the code of the argument,
/// or nothing where it is a variable.
/// It takes no memory.
pub fn pattern_of(decl: &Decl, head: &Term) -> Pattern
    requires arity { arity (arguments (seen head.now)) ≡ decl.now.pred.arity }
    requires valid { IsTrue (is_valid (seen head.now)) }
    ensures { result ≡ pattern_of decl.now.keys (seen head.now) }
{
    let keys = decl.keys.as_slice();
    Pattern {
        codes: asked_words(keys, arguments_of(head)),
        len: keys.len(),
    }
}

// Whether the bits of a prefix at a place and at every `width` places after it, `rows` of them at
// most, begin the `rows` lowest bits of a code.
fn rows_begin(prefix: &Bits, width: usize, place: usize, rows: usize, code: u64) -> bool
    requires width { width ≤ MAX_KEYED_PLACES }
    requires place { place ≤ MAX_KEYED_PLACES }
    requires rows { rows ≤ CODE_BITS }
    ensures { result ≡ begins (column width place rows prefix.now.bits) (bits rows code) }
{
    let mut at = place;
    for row in 0..rows {
        if at >= prefix.len() {
            return true;
        }
        let asked = code >> (rows - 1 - row) & 1 == 1;
        if prefix.bit(at) != asked {
            return false;
        }
        at += width;
    }
    true
}

// Whether the bits of one keyed place in a prefix begin a code.
fn begins_code(prefix: &Bits, width: usize, place: usize, code: u64) -> bool
    requires width { width ≤ MAX_KEYED_PLACES }
    requires place { place ≤ MAX_KEYED_PLACES }
    ensures { result ≡ begins_code width place code prefix.now.bits }
{
    rows_begin(prefix, width, place, CODE_BITS, code)
}

// Whether the bits of one keyed place in a prefix begin the code that is asked for or the code of a
// variable, which is 0.
fn place_may_hold(asked: Option<u64>, prefix: &Bits, width: usize, place: usize) -> bool
    requires width { width ≤ MAX_KEYED_PLACES }
    requires place { place ≤ MAX_KEYED_PLACES }
    ensures { result ≡ place_may_hold width place (asked_bits asked) prefix.now.bits }
{
    match asked {
        None => true,
        Some(code) => begins_code(prefix, width, place, code)
            || begins_code(prefix, width, place, VARIABLE_CODE),
    }
}

/// Whether a key that begins with a prefix may fit a pattern: at each keyed place with a code, the
/// bits of that place in the prefix begin this code or the code of a variable. It takes no memory.
pub fn may_hold(p: &Pattern, prefix: &Bits) -> bool
    ensures { result ≡ may_hold p.now prefix.now.bits }
{
    let codes = p.codes();
    for (place, asked) in codes.iter().enumerate() {
        if !place_may_hold(*asked, prefix, codes.len(), place) {
            return false;
        }
    }
    true
}
