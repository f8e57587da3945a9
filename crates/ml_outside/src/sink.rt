//! Where output goes, by what was written and by how often it failed.
ghost use Rattle.std.specs.Prelude.{◌≡◌, List, ℕ, Option, OnOk, IsErrOf};
ghost use Rattle.ml_outside.specs.declared.sink.WriteStop.TheVariants as write_stop;
ghost use Rattle.ml_outside.specs.Causes.{HasCause};
ghost use Rattle.ml_outside.specs.Written.{Appended, AppendedFront};

use std::alloc::{AllocError, Global};

/// Why a write did not end well.
#[derive(Clone, Copy, Debug, PartialEq, Eq)]
pub enum WriteStop {
    /// The outside failed, and the sink counted it. A front of the bytes was appended: some of
    /// them, all or none.
    Failed,
    /// Memory was refused. Nothing was appended.
    OutOfMemory,
}

impl From<AllocError> for WriteStop {
    ghost from_gives = { λ _ stop. stop ≡ write_stop.OutOfMemory };

    fn from(_: AllocError) -> Self {
        WriteStop::OutOfMemory
    }
}

/// A stream of bytes that only grows.
pub trait Sink {
    /// What has been written, where the sink tells.
    ghost written: { Self → Option (List ℕ) };

    /// How often a write has failed.
    ghost faults: { Self → ℕ };

    /// Appends the bytes, all of them at `Ok`.
    fn write_all(&mut self, alloc: Global, bytes: &[u8]) -> Result<(), WriteStop>
        ensures ok { OnOk result (Appended (written self.old) (written self.new) bytes.now) }
        ensures failed { IsErrOf result WriteStop.Failed
            → AppendedFront (written self.old) (written self.new) bytes.now }
        ensures memory { IsErrOf result WriteStop.OutOfMemory
            → written self.new ≡ written self.old }

        // A failure comes only where it was counted; want of memory is no fault.
        ensures cause { HasCause (faults self.old) (faults self.new) result WriteStop.Failed }
        ensures uncounted { IsErrOf result WriteStop.OutOfMemory
            → faults self.new ≡ faults self.old };
}
