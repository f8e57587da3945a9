//! Laws of variables' numbers. The function does nothing: its contract is the laws, for the layers
//! above and for the reader.
ghost use Rattle.std.specs.Prelude.{◌≡◌, ℕ, ◌<◌, IsTrue, false};
ghost use Rattle.ml_term.specs.Tree.{variable, occurs};
ghost use Rattle.ml_heap.specs.Changes.{Changes, cell_count, variable_count, stands_for};
ghost use Rattle.ml_heap.specs.Changes.{HasOneMore, MayBeBound};

/// Variables are numbered below the count of those created.
/// `below`: every variable of a heap's trees has such a number. `absent`: so the next number stands
/// in no tree.
/// `free`: a variable that was made just now may be bound to every older cell, with no walk through
/// its term.
pub fn numbers_are_below_the_count()
    ensures below { (h : Changes) (r n : ℕ) → IsTrue (occurs n (stands_for h r)) →
        n < variable_count h }
    ensures absent { (h : Changes) (r : ℕ) → occurs (variable_count h) (stands_for h r) ≡ false }
    ensures free { (h after : Changes) (var r : ℕ) →
        HasOneMore h after var (variable (variable_count h)) →
        r < cell_count h → MayBeBound (stands_for after var) (stands_for after r) }
{}
