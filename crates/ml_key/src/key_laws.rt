//! Laws of items' keys, of the prefixes of regions, and of patterns. The functions do nothing:
//! their contracts are the laws.
ghost use Rattle.std.specs.Prelude.{◌≡◌, ℕ, ◌^◌, ◌<◌, ◌≤◌, ◌↔◌, Bool, IsTrue, List, Option, length};
ghost use Rattle.ml_bits.specs.BitList.{Begins};
ghost use Rattle.ml_key.specs.ItemKeys.{item_key};
ghost use Rattle.ml_term.specs.CanonicalBytes.{bytes_of};
ghost use Rattle.ml_term.specs.Patterns.{begins, fits, may_hold};
ghost use Rattle.ml_term.specs.Tree.{Tree};
ghost use Rattle.ml_term.specs.Valid.{is_valid};
ghost use Rattle.ml_term.specs.declared.declaration.Decl.{Decl};

use crate::limits::MAX_KEY_BITS;
use ml_term::Kind;

/// What one list begins the other means: the test of the definitions of keys and the relation that
/// bit lists are compared by say the same.
pub fn beginnings_are_the_same()
    ensures { (front whole : List Bool) → IsTrue (begins front whole) ↔ Begins front whole }
{}

/// Which regions a search has to look at.
/// `owner`: a prefix that begins a fitting key may hold it, so no region is passed over that owns
/// one.
/// `below`: where a longer prefix may hold a fitting key, so may a shorter one that begins it. So a
/// prefix that can't hold one rules out all regions below it.
pub fn prefixes_that_may_hold()
    ensures owner { (pattern : List (Option (List Bool))) (prefix key : List Bool) →
        IsTrue (fits pattern key) → Begins prefix key → IsTrue (may_hold pattern prefix) }
    ensures below { (pattern : List (Option (List Bool))) (prefix longer : List Bool) →
        Begins prefix longer → IsTrue (may_hold pattern longer) → IsTrue (may_hold pattern prefix) }
{}

/// No item's key is, or begins, the key of another item of its file.
/// `tuples`: for different tuples. `clauses`: for clauses of different storage numbers, whatever
/// the clauses are.
pub fn items_have_keys_of_their_own(kind: Kind)
    ensures tuples { kind ≡ Kind.Relation → (keys : List ℕ) (t u : Tree) (m n : ℕ) →
        IsTrue (is_valid t) → IsTrue (is_valid u) →
        Begins (item_key kind keys t m) (item_key kind keys u n) → t ≡ u }
    ensures clauses { kind ≡ Kind.Clauses → (keys : List ℕ) (t u : Tree) (m n : ℕ) → m < 2 ^ 64 →
        n < 2 ^ 64 →
        Begins (item_key kind keys t m) (item_key kind keys u n) → m ≡ n }
{}

/// An item of at most 4,096 canonical bytes has a key of at most 33,280 bits, whatever its
/// declaration and its storage number are.
pub fn keys_have_at_most_33280_bits()
    ensures { (decl : Decl) (t : Tree) (number : ℕ) → length (bytes_of t) ≤ 4096 →
        length (item_key decl.kind decl.keys t number) ≤ MAX_KEY_BITS }
{}
