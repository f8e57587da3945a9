//! Laws of locks. The functions do nothing: their contracts are the laws.
ghost use Rattle.std.specs.Prelude.{◌≡◌, ◌∷◌, ℕ, Bool, List, []};
ghost use Rattle.ml_desk.specs.declared.death.Death.{Death};
ghost use Rattle.ml_desk.specs.declared.mode.Mode.{Mode};
ghost use Rattle.ml_locks.specs.Changes.{IsGranted, IsWeakened};
ghost use Rattle.ml_locks.specs.Modes.{Locks, mode_of};
ghost use Rattle.ml_locks.specs.Requests.{IsLawful, NamesDeath, modes_at};

/// What a request names at a death is a lawful death.
pub fn deaths_are_lawful()
    ensures { (locks : Locks) (asker pred : ℕ) (prefixes : List (List Bool)) (mode : Mode)
        (death : Death) → NamesDeath (modes_at locks pred) asker pred prefixes mode death →
        IsLawful locks prefixes death }
{}

/// A unit that was granted and then given its former mode again leaves the table as it was.
pub fn weakened_after_granted_is_as_before()
    ensures { (old granted weakened : Locks) (session pred : ℕ) (prefix : List Bool)
        (mode : Mode) → IsGranted old session pred (prefix ∷ []) mode granted →
        IsWeakened granted session pred prefix (mode_of old session pred prefix) weakened →
        weakened ≡ old }
{}
