//! Laws of how a heap carries its trees. The functions do nothing: their contracts are the laws,
//! for the layers above and for the reader.
ghost use Rattle.std.specs.Prelude.{◌≡◌, ◌≢◌, ℕ, List, [], ◌<◌, map, length, slice_index, false};
ghost use Rattle.std.specs.Prelude.{Some};
ghost use Rattle.ml_term.specs.Tree.{Tree, variable, compound, trees_of, occurs};
ghost use Rattle.ml_term.specs.Unify.{Map, apply, binding, unifier};
ghost use Rattle.ml_term.specs.Unifiers.{compose};
ghost use Rattle.ml_heap.specs.Changes.{Changes, trees, cell_count, variable_count, stands_for};
ghost use Rattle.ml_heap.specs.Changes.{bind_in, KeepsMarks, HasOneMore, Grows, HasTree};
ghost use Rattle.ml_heap.specs.Carries.{Carries, IsAlone};

/// A heap carries its trees from call to call.
/// `stays`: where nothing changes, by the empty map. `goes_on`: two calls, by one map after the
/// other.
/// `made`, `stored`, `grown`: a call that makes cells changes no older tree.
/// `same`: so does one that keeps all trees, as leaving out numbers.
/// `unified`: unification carries the trees by the unifier, and `bound` a binding by its map.
pub fn heaps_carry_their_trees()
    ensures stays { (h : Changes) → Carries h h [] }
    ensures goes_on { (a b c : Changes) (m n : Map) → Carries a b m → Carries b c n →
        Carries a c (compose m n) }
    ensures made { (h after : Changes) (r : ℕ) (t : Tree) → HasOneMore h after r t →
        Carries h after [] }
    ensures stored { (h after : Changes) (r : ℕ) (t : Tree) → HasTree h after r t →
        Carries h after [] }
    ensures grown { (h after : Changes) → Grows h after → Carries h after [] }
    ensures same { (h after : Changes) → trees after ≡ trees h → KeepsMarks h after →
        Carries h after [] }
    ensures unified { (h after : Changes) (m : Map) → trees after ≡ map (apply m) (trees h) →
        KeepsMarks h after → Carries h after m }
    ensures bound { (h after : Changes) (n : ℕ) (t : Tree) →
        trees after ≡ bind_in (variable n) t (trees h) → KeepsMarks h after →
        Carries h after (binding n t) }
{}

/// A variable that was made just now stands alone, and does so until its cell is named.
/// `made`: so it is at first. `same`: while all trees stay.
/// `one_more`: while a cell is made in whose tree it doesn't occur.
/// `compound`: as in a compound of other cells.
/// `unified`: while two other cells are unified.
pub fn a_new_variable_stands_alone()
    ensures made { (h after : Changes) (r : ℕ) →
        HasOneMore h after r (variable (variable_count h)) → IsAlone after (variable_count h) r }
    ensures same { (h after : Changes) (n r : ℕ) → IsAlone h n r → trees after ≡ trees h →
        IsAlone after n r }
    ensures one_more { (h after : Changes) (n r q : ℕ) (t : Tree) → IsAlone h n r →
        HasOneMore h after q t → occurs n t ≡ false → IsAlone after n r }
    ensures compound { (h : Changes) (n r : ℕ) (f args : List ℕ) → IsAlone h n r →
        ((i : ℕ) → i < length args →
        (slice_index args i < cell_count h) × (slice_index args i ≢ r)) →
        occurs n (compound f (trees_of (map (stands_for h) args))) ≡ false }
    ensures unified { (h after : Changes) (n r a b : ℕ) (m : Map) → IsAlone h n r →
        a < cell_count h → b < cell_count h → a ≢ r → b ≢ r →
        unifier (stands_for h a) (stands_for h b) ≡ Some m →
        trees after ≡ map (apply m) (trees h) → IsAlone after n r }
{}
