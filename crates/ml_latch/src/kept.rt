//! What a latch keeps.
ghost use Rattle.std.specs.Prelude.{ℕ, List};

/// A value that is kept by a latch. Its three meanings are for contracts alone: no entry, note or
/// base is made here.
pub trait Kept {
    /// One thing that was done to the value.
    type Entry;

    /// One thing that was done through the seat of one number.
    type Note;

    /// Plain data that no job changes.
    type Base;

    /// All that was done to the value, the oldest first.
    ghost past: { Self → List Self.Entry };

    /// All that was done through the seat with a number, the oldest first.
    ghost own: { Self → ℕ → List Self.Note };

    /// What the value began with.
    ghost base: { Self → Self.Base };
}
