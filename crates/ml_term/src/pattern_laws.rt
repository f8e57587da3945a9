//! Laws of patterns: ground terms, keys that fit, and prefixes of keys. The functions do nothing:
//! their contracts are the laws.
ghost use Rattle.std.specs.Prelude.{◌≡◌, ◌≢◌, ℕ, ◌+◌, ◌*◌, ◌^◌, ◌<◌, ◌↔◌, Bool, IsTrue, List, []};
ghost use Rattle.std.specs.Prelude.{◌∷◌, ◌++◌, map, length, slice_get, Option, Some, None, IsSome};
ghost use Rattle.std.specs.List.{zip};
ghost use Rattle.ml_term.specs.Tree.{Tree, Trees, variable, compound, compound_2, trees_of};
ghost use Rattle.ml_term.specs.Tree.{list_of, arity, occurs, is_ground, substitute, rename};
ghost use Rattle.ml_term.specs.Unify.{Equation, Map, value_of, apply, binding, solve_equations};
ghost use Rattle.ml_term.specs.Unify.{mgu, unifier};
ghost use Rattle.ml_term.specs.Unifiers.{equations_under, compose};
ghost use Rattle.ml_term.specs.CanonicalBytes.{bytes_of};
ghost use Rattle.ml_term.specs.Codes.{code};
ghost use Rattle.ml_term.specs.Valid.{is_valid};
ghost use Rattle.ml_term.specs.Keys.{argument, arguments, are_different, key_head, tuple_key};
ghost use Rattle.ml_term.specs.Keys.{clause_key};
ghost use Rattle.ml_term.specs.Patterns.{pattern_of, attribute, begins, fits, may_hold};
ghost use Rattle.ml_term.specs.Instances.{HaveACommonInstance, StandsIn, all_ground, is_head};

/// A ground term is what every substitution, every map and every renaming makes of it.
pub fn ground_terms_stay()
    ensures substituted { (s : ℕ → Tree) (t : Tree) → IsTrue (is_ground t) → substitute s t ≡ t }
    ensures applied { (m : Map) (t : Tree) → IsTrue (is_ground t) → apply m t ≡ t }
    ensures renamed { (next : ℕ) (t : Tree) → IsTrue (is_ground t) → rename next t ≡ t }
{}

/// What unifying a pattern with a ground term gives.
/// `exactly`: a map, exactly where the ground term is an instance of the pattern.
/// `instance`: the map makes the pattern that term. `only`: each variable of the pattern has the
/// one value with which that is so.
/// `stands`: this value stands in the ground term, and `closed`: it is ground too. `others`: the
/// other variables stay.
pub fn matching_a_ground_term()
    ensures exactly { (t u : Tree) → IsTrue (is_ground u) →
        IsSome (unifier t u) ↔ ((s : ℕ → Tree) × (substitute s t ≡ u)) }
    ensures instance { (t u : Tree) (m : Map) → IsTrue (is_ground u) → unifier t u ≡ Some m →
        apply m t ≡ u }
    ensures only { (t u : Tree) (m : Map) (s : ℕ → Tree) (n : ℕ) → IsTrue (is_ground u) →
        unifier t u ≡ Some m →
        substitute s t ≡ u → IsTrue (occurs n t) → s n ≡ value_of m n }
    ensures stands { (t u : Tree) (m : Map) (n : ℕ) → IsTrue (is_ground u) → unifier t u ≡ Some m →
        IsTrue (occurs n t) → StandsIn (value_of m n) u }
    ensures closed { (t u : Tree) (m : Map) (n : ℕ) → IsTrue (is_ground u) → unifier t u ≡ Some m →
        IsTrue (occurs n t) → IsTrue (is_ground (value_of m n)) }
    ensures others { (t u : Tree) (m : Map) (n : ℕ) → IsTrue (is_ground u) → unifier t u ≡ Some m →
        (IsTrue (occurs n t) → ⊥) → value_of m n ≡ variable n }
{}

/// The arguments of a pattern against those of a ground tuple, one after another.
/// `compounds`: compounds of one name and arity are solved by their arguments. `takes`: a variable
/// takes a ground term.
/// `equal`, `unequal`: two equal terms are dropped, and for two different ground terms there is no
/// unifier.
pub fn matching_arguments()
    ensures compounds { (f : List ℕ) (ts us : Trees) (es : List Equation) (m : Map) →
        arity ts ≡ arity us →
        solve_equations ((compound f ts, compound f us) ∷ es) m
        ≡ solve_equations (zip (list_of ts) (list_of us) ++ es) m }
    ensures takes { (n : ℕ) (u : Tree) (es : List Equation) (m : Map) → IsTrue (is_ground u) →
        solve_equations ((variable n, u) ∷ es) m
        ≡ solve_equations (equations_under (binding n u) es) (compose m (binding n u)) }
    ensures equal { (t : Tree) (es : List Equation) (m : Map) →
        solve_equations ((t, t) ∷ es) m ≡ solve_equations es m }
    ensures unequal { (t u : Tree) (es : List Equation) (m : Map) → IsTrue (is_ground t) →
        IsTrue (is_ground u) → t ≢ u → solve_equations ((t, u) ∷ es) m ≡ None }
{}

/// What simple patterns give with a ground tuple.
/// `different`: a pattern whose arguments are different variables takes the tuple's arguments, one
/// each.
/// `twice`, `no_two`: a pattern with one variable at two places takes a tuple whose two arguments
/// are equal, and no other.
pub fn matching_a_tuple()
    ensures different { (f : List ℕ) (ns : List ℕ) (us : Trees) → IsTrue (are_different ns) →
        length ns ≡ arity us → IsTrue (all_ground us) →
        unifier (compound f (trees_of (map variable ns))) (compound f us)
        ≡ Some (zip ns (list_of us)) }
    ensures twice { (f : List ℕ) (n : ℕ) (u : Tree) → IsTrue (is_ground u) →
        unifier (compound_2 f (variable n) (variable n)) (compound_2 f u u) ≡ Some (binding n u) }
    ensures no_two { (f : List ℕ) (n : ℕ) (u v : Tree) → IsTrue (is_ground u) →
        IsTrue (is_ground v) → u ≢ v →
        unifier (compound_2 f (variable n) (variable n)) (compound_2 f u v) ≡ None }
{}

/// The key of an item that meets a pattern fits the pattern. The pattern and the item's head are
/// atoms or compounds; the keys may be any.
/// `instance`: they have a common instance, each with a substitution of its own, whatever the key's
/// tail is.
/// `clause`: the clause's head, renamed from any number on, unifies with the pattern. `tuple`: the
/// tuple unifies with the pattern.
pub fn keys_of_items_that_meet_fit()
    ensures instance { (keys : List ℕ) (pattern head : Tree) (tail : List Bool) →
        IsTrue (is_head pattern) → IsTrue (is_head head) →
        HaveACommonInstance pattern head →
        IsTrue (fits (pattern_of keys pattern) (key_head keys head ++ tail)) }
    ensures clause { (keys : List ℕ) (pattern head : Tree) (next number : ℕ) →
        IsTrue (is_head pattern) → IsTrue (is_head head) →
        IsSome (unifier pattern (rename next head)) →
        IsTrue (fits (pattern_of keys pattern) (clause_key keys head number)) }
    ensures tuple { (keys : List ℕ) (pattern t : Tree) → IsTrue (is_head pattern) →
        IsTrue (is_head t) →
        IsSome (unifier pattern t) → IsTrue (fits (pattern_of keys pattern) (tuple_key keys t)) }
{}

/// Which prefixes may hold a fitting key.
/// `each`: one that begins a fitting key may hold it. `exactly`: and one that may hold a fitting
/// key begins some key that fits the head's pattern.
pub fn prefixes_of_fitting_keys_hold()
    ensures each { (pattern : List (Option (List Bool))) (prefix key : List Bool) →
        IsTrue (fits pattern key) → IsTrue (begins prefix key) → IsTrue (may_hold pattern prefix) }
    ensures exactly { (keys : List ℕ) (head : Tree) (prefix : List Bool) →
        IsTrue (may_hold (pattern_of keys head) prefix) ↔
        ((key : List Bool) × (IsTrue (begins prefix key)
        × IsTrue (fits (pattern_of keys head) key))) }
{}

/// Where a key has the codes of the keyed arguments.
/// `length`: a code has 64 bits, and so `head`: the codes of a key together have 64 bits for each
/// keyed argument.
/// `places`: bit j of the code of the i-th keyed argument, both from 0, stands at place j * a + i,
/// where a arguments are keyed.
/// `found`: so the bits of that argument's places are its code, whatever the key's tail is.
pub fn keys_have_codes()
    ensures length { (t : Tree) → length (code t) ≡ 64 }
    ensures head { (keys : List ℕ) (t : Tree) → length (key_head keys t) ≡ 64 * length keys }
    ensures places { (before after : List ℕ) (k : ℕ) (t : Tree) (tail : List Bool) (j : ℕ) →
        j < 64 →
        slice_get (key_head (before ++ k ∷ after) t ++ tail)
        (j * length (before ++ k ∷ after) + length before)
        ≡ slice_get (code (argument k (arguments t))) j }
    ensures found { (before after : List ℕ) (k : ℕ) (t : Tree) (tail : List Bool) →
        attribute (length (before ++ k ∷ after)) (length before)
        (key_head (before ++ k ∷ after) t ++ tail) ≡ code (argument k (arguments t)) }
{}

/// The keys of a file's items tell them apart: none is, or begins, the key of another. The keyed
/// arguments may be any.
/// `tuples`: for different tuples, by their canonical bytes. `clauses`: for clauses of different
/// storage numbers, whatever their heads are.
/// `bytes`: canonical bytes tell where they end. What begins with the bytes of two valid terms
/// begins with one term's alone, and goes on alike.
pub fn keys_tell_items_apart()
    ensures tuples { (keys : List ℕ) (t u : Tree) → IsTrue (is_valid t) → IsTrue (is_valid u) →
        IsTrue (begins (tuple_key keys t) (tuple_key keys u)) → t ≡ u }
    ensures clauses { (keys : List ℕ) (head other : Tree) (m n : ℕ) → m < 2 ^ 64 → n < 2 ^ 64 →
        IsTrue (begins (clause_key keys head m) (clause_key keys other n)) → m ≡ n }
    ensures bytes { (t u : Tree) (after behind : List ℕ) → IsTrue (is_valid t) →
        IsTrue (is_valid u) →
        bytes_of t ++ after ≡ bytes_of u ++ behind → (t ≡ u) × (after ≡ behind) }
{}
