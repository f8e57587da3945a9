//! What is done in a turn.
ghost use Rattle.std.specs.Prelude.{◌≡◌, ◌≢◌, ℕ, List};
ghost use mathlib.Core.List.{IsPrefix};

use crate::kept::Kept;

/// The work of one turn.
pub trait Job<V: Kept> {
    /// What the caller of the turn is told.
    type Answer;

    /// When the work may be done: a fact of the job, the value's base, the seat's own list and the
    /// past.
    ghost needs: { Self → V.Base → List V.Note → List V.Entry → Type 0 };

    /// What the work does: a fact of the job, the value before, the seat's number, the answer and
    /// the value after.
    ghost gives: { Self → V → ℕ → Self.Answer → V → Type 0 };

    /// Works on the value, through the seat with this number. The past only grows, no other seat's
    /// list changes, and the base stays.
    fn work(self, value: &mut V, number: u32) -> Self::Answer
        requires { needs self (V.base value.old) (V.own value.old number) (V.past value.old) }
        ensures gives { gives self value.old number result value.new }
        ensures past { IsPrefix (V.past value.old) (V.past value.new) }
        ensures own { (n : ℕ) → n ≢ number → V.own value.new n ≡ V.own value.old n }
        ensures base { V.base value.new ≡ V.base value.old };
}
