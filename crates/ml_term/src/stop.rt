//! Why no term was read from bytes.
ghost use Rattle.std.specs.Prelude.{◌≡◌};
ghost use Rattle.ml_term.specs.declared.stop.BytesStop.TheVariants.{OutOfMemory};

use std::alloc::{AllocError, AllocFailed};

/// Bytes that are no canonical bytes of a term, by the place of their first defect, counted from 0
/// from the first of all the bytes.
#[derive(Clone, Copy, Debug, PartialEq, Eq)]
pub struct BadBytes {
    pub place: usize,
}

/// Why no term was read. The bytes stay as they are.
#[derive(Clone, Copy, Debug, PartialEq, Eq)]
pub enum BytesStop {
    /// No canonical bytes of a term stand there.
    Bad(BadBytes),
    /// Memory was refused.
    OutOfMemory,
}

impl From<AllocError> for BytesStop {
    ghost from_gives = { λ _ stop. stop ≡ OutOfMemory };

    fn from(_: AllocError) -> Self {
        BytesStop::OutOfMemory
    }
}

impl<T: Drop> From<AllocFailed<T>> for BytesStop {
    ghost from_gives = { λ _ stop. stop ≡ OutOfMemory };

    fn from(_: AllocFailed<T>) -> Self {
        BytesStop::OutOfMemory
    }
}
