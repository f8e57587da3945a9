//! Laws of terms that stand as bytes among others. The function does nothing: its contract is the
//! laws.
ghost use Rattle.std.specs.Prelude.{◌≡◌, ℕ, List, None};
ghost use Rattle.ml_term.specs.FirstDefect.{first_defect};
ghost use Rattle.ml_term.specs.StandsAt.{StandsAt};
ghost use Rattle.ml_term.specs.Tree.{Tree};

/// From a place on either the canonical bytes of one term stand there, or there is a defect.
/// `apart`: where they stand there is none. `one`: at most one term's stand there, and they end at
/// one place.
pub fn a_term_or_a_defect()
    ensures apart { (bytes : List ℕ) (at : ℕ) (t : Tree) (after : ℕ) → StandsAt bytes at t after →
        first_defect bytes at ≡ None }
    ensures one { (bytes : List ℕ) (at : ℕ) (t u : Tree) (after other : ℕ) →
        StandsAt bytes at t after → StandsAt bytes at u other → (t ≡ u) × (after ≡ other) }
{}
