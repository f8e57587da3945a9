//! How a run ended.
ghost use Rattle.std.specs.Prelude.{◌≡◌};
ghost use Rattle.ml_run.specs.declared.status.Status.TheVariants as run_status;

use ml_reader::ReadFault;
use std::alloc::{AllocError, AllocFailed};

/// How a run ended. A word that is named is named by its place in the words, from 0.
#[derive(Clone, Copy, Debug, PartialEq, Eq)]
pub enum Status {
    /// All was done.
    Done,
    /// The words aren't of the command's form.
    BadWords,
    /// Nothing is held under the name that this word gives.
    NoFile(usize),
    /// What is held under the name that this word gives is over the limit.
    TooLong(usize),
    /// The shelf failed at the fetch of this word, and counted it.
    ReadFailed(usize),
    /// The rules have this first fault.
    RulesRefused(ReadFault),
    /// The script of this number, from 1, has this first fault.
    ScriptRefused(u32, ReadFault),
    /// The output failed, and the sink counted it.
    WriteFailed,
    /// Memory was refused.
    OutOfMemory,
}

impl Status {
    ghost use Rattle.ml_run.specs.Status.{exit_number};

    /// The number that the program ends with. It takes no memory.
    pub fn number(&self) -> u8
        ensures { result ≡ exit_number self.now }
    {
        match *self {
            Status::Done => 0,
            Status::BadWords => 2,
            Status::NoFile(_) => 3,
            Status::TooLong(_) => 4,
            Status::ReadFailed(_) => 5,
            Status::RulesRefused(_) => 6,
            Status::ScriptRefused(_, _) => 7,
            Status::WriteFailed => 9,
            Status::OutOfMemory => 11,
        }
    }
}

impl From<AllocError> for Status {
    ghost from_gives = { λ _ s. s ≡ run_status.OutOfMemory };

    fn from(_: AllocError) -> Self {
        Status::OutOfMemory
    }
}

impl<T: Drop> From<AllocFailed<T>> for Status {
    ghost from_gives = { λ _ s. s ≡ run_status.OutOfMemory };

    fn from(_: AllocFailed<T>) -> Self {
        Status::OutOfMemory
    }
}
