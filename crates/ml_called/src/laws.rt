//! Laws of bodies. The functions do nothing: their contracts are the laws, for the layers above and
//! for the reader.
ghost use Rattle.std.specs.Prelude.{◌≡◌, ◌+◌, ℕ, IsTrue, length, List, map};
ghost use Rattle.std.specs.List.{list_any};
ghost use Rattle.ml_compile.specs.declared.instr.Instr.{Instr};
ghost use Rattle.ml_heap.specs.Changes.{Changes};
ghost use Rattle.ml_term.specs.Tree.{occurs, Tree};
ghost use Rattle.ml_search.specs.Bodies.{Body, body_from, in_body, is_callable};
ghost use Rattle.ml_called.specs.Called.{HasSlot, IsCalled};
ghost use Rattle.ml_called.specs.Goals.{change_terms, keeps_variables, terms_in};

/// What body a term is taken in as depends on its names, its connectives and the numbers of its
/// goals' arguments alone.
/// `body`: so where the terms in it change, and variables that stand as bodies stay variables, the
/// same body has the changed terms. `callable`: it stays callable, or not.
pub fn a_map_keeps_a_body()
    ensures body { (s : Tree → Tree) (t : Tree) → IsTrue (keeps_variables s t) →
        body_from (change_terms s t) ≡ in_body s (body_from t) }
    ensures callable { (s : Tree → Tree) (t : Tree) → IsTrue (keeps_variables s t) →
        is_callable (change_terms s t) ≡ is_callable t }
{}

/// The terms in a body that is changed are the changed terms.
pub fn a_changed_body_has_the_changed_terms()
    ensures { (s : Tree → Tree) (b : Body) → terms_in (in_body s b) ≡ map s (terms_in b) }
{}

/// An environment of a called body has a slot for each variable that occurs in the body.
pub fn a_called_body_has_its_slots()
    ensures { (h : Changes) (r : ℕ) (old new : List ℕ) (code : List Instr)
        (called : IsCalled h r old new code) (n : ℕ) →
        IsTrue (list_any (occurs n) (terms_in called.body)) → HasSlot h new (length old + n) }
{}
