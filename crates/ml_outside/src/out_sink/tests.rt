// The standard output of the tests, and the faults of writing.
use super::*;
use std::cell::Cell;
use std::fmt::Display;
use std::io::ErrorKind;
use std::test::Fail;

#[test]
fn output_is_whole_or_a_counted_fault(rt: HostRuntime) -> Result<(), Fail> {
    let alloc = rt.alloc();
    let mut sink = OutSink::new(&rt);
    sink.write_all(alloc, b"written by a test\n")?;
    assert_eq!(rt; sink.faults, 0);

    for (room, want, taken, count) in [
        (5, Ok(()), 5, 0),
        (9, Ok(()), 5, 0),
        (4, Err(WriteStop::Failed), 4, 1),
        (0, Err(WriteStop::Failed), 0, 1),
    ] {
        let printer = Narrow {
            room,
            taken: Cell::new(0),
            is_interrupted: Cell::new(true),
        };
        let mut sink = OutSink::new(&printer);
        assert_eq!(rt; sink.write_all(alloc, b"five\n"), want);
        assert_eq!(rt; (printer.taken.get(), sink.faults), (taken, count));
    }
    Ok(())
}

// A printer that takes a byte at a time while there is room, and is interrupted before each.
#[derive(Drop)]
struct Narrow {
    room: usize,
    taken: Cell<usize>,
    is_interrupted: Cell<bool>,
}

impl Print for Narrow {
    fn print<D: Display + Drop>(&self, _value: D) -> io::Result<()> {
        Err(io::Error::from(ErrorKind::Unsupported))
    }

    fn println<D: Display + Drop>(&self, _value: D) -> io::Result<()> {
        Err(io::Error::from(ErrorKind::Unsupported))
    }

    fn write_all(&self, _bytes: &[u8]) -> io::Result<()> {
        Err(io::Error::from(ErrorKind::Unsupported))
    }

    fn write_some(&self, bytes: &[u8]) -> io::Result<usize> {
        let is_interrupted = self.is_interrupted.get();
        self.is_interrupted.set(!is_interrupted);
        if is_interrupted {
            return Err(io::Error::from(ErrorKind::Interrupted));
        }
        let taken = self.taken.get();
        if bytes.is_empty() || taken >= self.room {
            return Ok(0);
        }
        self.taken.set(taken + 1);
        Ok(1)
    }
}
