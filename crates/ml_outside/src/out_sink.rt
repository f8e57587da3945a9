//! Standard output as a sink: the trusted edge. It tells nothing of what a terminal shows.
ghost use Rattle.std.specs.Prelude.{◌≡◌, None};

use crate::transfer::write_whole;
use crate::{Sink, WriteStop};
use std::alloc::Global;
use std::io;
use std::marker::Model;

/// The runtime's standard output. Nothing is kept back: at `Ok` the system has all of the bytes.
///
/// Contracts see it as its count of faults, of 64 bits, which stands still at its last value.
#[derive(Drop)]
pub struct OutSink<'a, P: Print> {
    rt: &'a P,
    faults: u64,
}

impl<'a, P: Print> Model for OutSink<'a, P> {
    ghost use Rattle.std.specs.Prelude.{ℕ};

    ghost Value = { ℕ };

    ghost view = { λ sink. sink.faults };
}

impl<'a, P: Print> OutSink<'a, P> {
    /// A sink over the standard output of the runtime, with no fault counted.
    pub fn new(rt: &'a P) -> Self
        ensures { result ≡ 0 }
    {
        OutSink { rt, faults: 0 }
    }
}

impl<P: Print> Sink for OutSink<'_, P> {
    ghost written = { λ _. None };

    ghost faults = { λ count. count };

    /// It takes no memory, so it never answers `OutOfMemory`.
    fn write_all(&mut self, _alloc: Global, bytes: &[u8]) -> Result<(), WriteStop> {
        let result = write_whole(&mut io::writer(self.rt), bytes);
        if result.is_err() {
            self.faults = self.faults.saturating_add(1);
        }
        result
    }
}

#[cfg(test)]
mod tests;
