//! Why a text wasn't written.
ghost use Rattle.std.specs.Prelude.{◌≡◌};
ghost use Rattle.ml_writer.specs.declared.stop.LineStop.TheVariants.{OutOfMemory};

use std::alloc::AllocError;

/// Why a text that counts as an answer wasn't written. Nothing of it is left.
#[derive(Clone, Copy, Debug, PartialEq, Eq)]
pub enum LineStop {
    /// The answer bytes would pass their limit.
    Full,
    /// Memory was refused.
    OutOfMemory,
}

impl From<AllocError> for LineStop {
    ghost from_gives = { λ _ stop. stop ≡ OutOfMemory };

    fn from(_: AllocError) -> LineStop {
        LineStop::OutOfMemory
    }
}
