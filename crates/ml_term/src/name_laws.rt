//! Laws of the equality of names and predicates. The function does nothing: its contract is the
//! law.
ghost use Rattle.std.specs.Prelude.{◌≡◌, ◌↔◌, ℕ, List, IsTrue};
ghost use Rattle.ml_term.specs.declared.declaration.Pred.{Pred};

use crate::declaration::Pred;
use crate::name::Name;

/// Names and predicates that `==` takes for equal are one, so that a map by predicate has one entry
/// for each.
pub fn equal_names_are_one()
    ensures names { (f g : List ℕ) → IsTrue (⟦<Name as PartialEq>⟧.eq f g) ↔ (f ≡ g) }
    ensures preds { (p q : Pred) → IsTrue (⟦<Pred as PartialEq>⟧.eq p q) ↔ (p ≡ q) }
{}
