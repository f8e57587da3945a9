//! A sink in memory. It never fails, so its count stays 0.
ghost use Rattle.std.specs.Prelude.{◌≡◌, [], Some};

use crate::{Sink, WriteStop};
use std::alloc::Global;
use std::marker::Model;

/// A sink that keeps what was written. Contracts see it as the list of these bytes.
#[derive(Drop)]
pub struct MemSink {
    bytes: Vec<u8>,
}

impl Model for MemSink {
    ghost use Rattle.std.specs.Prelude.{List, ℕ};

    ghost Value = { List ℕ };

    ghost view = { λ sink. sink.bytes.items };
}

impl MemSink {
    /// A sink to which nothing was written. It takes no memory.
    pub fn new(alloc: Global) -> Self
        ensures { result ≡ [] }
    {
        MemSink {
            bytes: Vec::new(alloc),
        }
    }

    /// What was written. It takes no memory.
    pub fn bytes(&self) -> &[u8]
        ensures { result.now ≡ self.now }
    {
        &self.bytes
    }
}

impl Sink for MemSink {
    ghost written = { λ sink. Some sink };

    ghost faults = { λ _. 0 };

    fn write_all(&mut self, _alloc: Global, bytes: &[u8]) -> Result<(), WriteStop> {
        self.bytes.extend_from_slice(bytes)?;
        Ok(())
    }
}

#[cfg(test)]
mod tests {
    use super::*;
    use std::test::Fail;

    #[test]
    fn what_is_written_stands_behind_what_was(rt: HostRuntime) -> Result<(), Fail> {
        let alloc = rt.alloc();
        let mut sink = MemSink::new(alloc);
        for (piece, want) in [("", ""), ("ab", "ab"), ("", "ab"), ("c\n", "abc\n")] {
            sink.write_all(alloc, piece.as_bytes())?;
            assert_eq!(rt; sink.bytes(), want.as_bytes());
        }
        Ok(())
    }
}
