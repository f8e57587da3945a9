//! A keeper of byte texts under names, by what it holds and by how often it failed.
ghost use Rattle.std.specs.Prelude.{◌≡◌, ◌≤◌, ℕ, Option, length, option_map, IfOk, OnOk, IfSome};
ghost use Rattle.std.specs.Prelude.{IsErrOf};
ghost use Rattle.std.specs.FinMap as map;
ghost use Rattle.ml_outside.specs.declared.shelf.FetchStop.TheVariants as fetch_stop;
ghost use Rattle.ml_outside.specs.declared.shelf.PutStop.TheVariants as put_stop;
ghost use Rattle.ml_outside.specs.Causes.{HasCause};
ghost use Rattle.ml_outside.specs.Held.{Files, Finds, OthersStay};

use std::alloc::{AllocError, AllocFailed, Global};

/// Why a fetch gave no bytes. After each of these the shelf holds what it held.
#[derive(Clone, Copy, Debug, PartialEq, Eq)]
pub enum FetchStop {
    /// Nothing is held under the name.
    Absent,
    /// The bytes held under the name are more than the limit.
    TooLong,
    /// The outside failed, and the shelf counted it.
    Failed,
    /// Memory was refused.
    OutOfMemory,
}

/// Why a put did not end well.
#[derive(Clone, Copy, Debug, PartialEq, Eq)]
pub enum PutStop {
    /// The outside failed, and the shelf counted it. Nothing is told of what that name holds then;
    /// all other names stay.
    Failed,
    /// Memory was refused. The shelf holds what it held.
    OutOfMemory,
}

impl From<AllocError> for FetchStop {
    ghost from_gives = { λ _ stop. stop ≡ fetch_stop.OutOfMemory };

    fn from(_: AllocError) -> Self {
        FetchStop::OutOfMemory
    }
}

impl From<AllocError> for PutStop {
    ghost from_gives = { λ _ stop. stop ≡ put_stop.OutOfMemory };

    fn from(_: AllocError) -> Self {
        PutStop::OutOfMemory
    }
}

impl<T: Drop> From<AllocFailed<T>> for PutStop {
    ghost from_gives = { λ _ stop. stop ≡ put_stop.OutOfMemory };

    fn from(_: AllocFailed<T>) -> Self {
        PutStop::OutOfMemory
    }
}

/// Byte texts under names.
pub trait Shelf {
    /// What is held, where the shelf tells.
    ghost held: { Self → Option Files };

    /// How often a fetch has failed.
    ghost faults: { Self → ℕ };

    /// How often a put has failed.
    ghost put_faults: { Self → ℕ };

    /// The bytes under a name, at most `limit` of them. It changes nothing that is held.
    fn fetch(&mut self, alloc: Global, name: &str, limit: usize) -> Result<Vec<u8>, FetchStop>
        ensures held { held self.new ≡ held self.old }
        ensures limit { IfOk result (λ bytes. length bytes.items ≤ limit) }
        ensures content { IfSome (held self.old)
            (λ files. Finds (map.get files name.now) limit result) }

        // A failure comes only where it was counted; want of memory is no fault.
        ensures cause { HasCause (faults self.old) (faults self.new) result FetchStop.Failed }
        ensures uncounted { IsErrOf result FetchStop.OutOfMemory
            → faults self.new ≡ faults self.old }
        ensures put_faults { put_faults self.new ≡ put_faults self.old };

    /// Puts the bytes under a name, in the place of those that were there.
    fn put(&mut self, alloc: Global, name: &str, bytes: &[u8]) -> Result<(), PutStop>
        ensures ok { OnOk result (held self.new
            ≡ option_map (λ files. map.insert files name.now bytes.now) (held self.old)) }
        ensures memory { IsErrOf result PutStop.OutOfMemory → held self.new ≡ held self.old }
        ensures failed { IsErrOf result PutStop.Failed
            → OthersStay name.now (held self.old) (held self.new) }

        // A failure comes only where it was counted; want of memory is no fault.
        ensures cause { HasCause (put_faults self.old) (put_faults self.new) result PutStop.Failed }
        ensures uncounted { IsErrOf result PutStop.OutOfMemory
            → put_faults self.new ≡ put_faults self.old }
        ensures faults { faults self.new ≡ faults self.old };
}
