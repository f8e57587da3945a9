//! Laws of canonical bytes and of keys. The functions do nothing: their contracts are the laws.
ghost use Rattle.std.specs.Prelude.{◌≡◌, ◌^◌, ◌<◌, ◌++◌, ℕ, List, Bool, IsTrue};
ghost use Rattle.std.specs.declared.cmp.Ordering.{Ordering};
ghost use Rattle.std.specs.declared.cmp.Ordering.TheVariants.{Equal};
ghost use Rattle.std.specs.Cmp.{IsTotalOrder};
ghost use Rattle.ml_term.specs.CanonicalBytes.{bytes_of};
ghost use Rattle.ml_term.specs.Keys.{clause_key, tuple_cmp, tuple_key};
ghost use Rattle.ml_term.specs.Patterns.{begins};
ghost use Rattle.ml_term.specs.Tree.{Tree};
ghost use Rattle.ml_term.specs.Valid.{is_valid};

/// Canonical bytes are read in one way: no term's bytes begin another's.
/// `term`: whatever follows the bytes of two terms, where both are the same list the terms are the
/// same. `rest`: and so is what follows.
pub fn canonical_bytes_tell_terms()
    ensures term { (t u : Tree) (xs ys : List ℕ) → IsTrue (is_valid t) → IsTrue (is_valid u) →
        bytes_of t ++ xs ≡ bytes_of u ++ ys → t ≡ u }
    ensures rest { (t u : Tree) (xs ys : List ℕ) → bytes_of t ++ xs ≡ bytes_of u ++ ys → xs ≡ ys }
{}

/// Two different tuples have different keys, and neither key begins the other, whatever the keyed
/// arguments are.
/// `order`: so only a tuple itself has its place in the order of keys, and `total`: this order is
/// total.
pub fn keys_tell_tuples()
    ensures different { (keys : List ℕ) (t u : Tree) → IsTrue (is_valid t) → IsTrue (is_valid u) →
        tuple_key keys t ≡ tuple_key keys u → t ≡ u }
    ensures apart { (keys : List ℕ) (t u : Tree) → IsTrue (is_valid t) → IsTrue (is_valid u) →
        IsTrue (begins (tuple_key keys t) (tuple_key keys u)) → t ≡ u }
    ensures order { (keys : List ℕ) (t u : Tree) → IsTrue (is_valid t) → IsTrue (is_valid u) →
        tuple_cmp keys t u ≡ Equal → t ≡ u }
    ensures total { (keys : List ℕ) → IsTotalOrder (tuple_cmp keys) }
{}

/// Two clauses with different storage numbers have different keys, and neither key begins the
/// other, whatever their heads are.
pub fn keys_tell_clauses()
    ensures different { (keys : List ℕ) (head other : Tree) (m n : ℕ) → m < 2 ^ 64 → n < 2 ^ 64 →
        clause_key keys head m ≡ clause_key keys other n → m ≡ n }
    ensures apart { (keys : List ℕ) (head other : Tree) (m n : ℕ) → m < 2 ^ 64 → n < 2 ^ 64 →
        IsTrue (begins (clause_key keys head m) (clause_key keys other n)) → m ≡ n }
{}
