//! Worked rows of the generator. The function does nothing: the checker computes its row.
ghost use Rattle.std.specs.Prelude.{◌≡◌, [], ◌∷◌};
ghost use Rattle.ml_make.specs.Facts.{made_facts};

/// The first six facts.
pub fn first_made_facts()
    ensures { made_facts 6 ≡ (0, 1) ∷ (6, 2) ∷ (8, 3) ∷ (9, 4) ∷ (0, 5) ∷ (0, 6) ∷ [] }
{}
