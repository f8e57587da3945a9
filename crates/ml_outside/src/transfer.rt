//! Bytes from a reader up to a limit, and bytes to a writer to the last one. A reader or a writer
//! may give or take less than it was asked for, be interrupted, or fail half-way.
ghost use Rattle.std.specs.Prelude.{◌≡◌, ◌≢◌, ◌≤◌, ◌↔◌, Some, None, length, take, IfOk, OnOk};
ghost use Rattle.std.specs.Prelude.{OnErr, IfSome, IsErrOf, IsOkUnless};
ghost use Rattle.std.specs.Io.KnownBytes.{Appends, Keeps};
ghost use Rattle.std.specs.IoError.{error_kind, raw_os_error};
ghost use Rattle.ml_outside.specs.Held.{Finds};
ghost use Rattle.ml_outside.specs.Written.{TookFront};

use crate::{FetchStop, WriteStop};
use std::alloc::Global;
use std::io::{self, ErrorKind, Read, Write};

/// The reader's bytes, if they are at most `limit`. No more than one byte past the limit is held.
pub fn read_up_to<R: Read + Drop>(
    alloc: Global,
    reader: R,
    limit: usize,
) -> Result<Vec<u8>, FetchStop>
    ensures limit { IfOk result (λ bytes. length bytes.items ≤ limit) }
    ensures content { IfSome (R.remaining reader) (λ all. Finds (Some all) limit result) }
    ensures present { IsErrOf result FetchStop.Absent → ⊥ }
{
    let mut bytes = Vec::new(alloc);
    let mut front = reader.take((limit as u64).saturating_add(1));
    if let Err(e) = front.read_to_end(&mut bytes) {
        return Err(stop_at(&e));
    }
    if bytes.len() > limit {
        return Err(FetchStop::TooLong);
    }
    Ok(bytes)
}

// An error of the system is a fault, whatever it says of memory. Else memory was refused here.
fn stop_at(error: &io::Error) -> FetchStop
    ensures memory { (result ≡ FetchStop.OutOfMemory)
        ↔ ((raw_os_error error.now ≡ None) × (error_kind error.now ≡ ErrorKind.OutOfMemory)) }
    ensures fault { result ≢ FetchStop.OutOfMemory → result ≡ FetchStop.Failed }
{
    if error.raw_os_error().is_none() && error.kind() == ErrorKind::OutOfMemory {
        FetchStop::OutOfMemory
    } else {
        FetchStop::Failed
    }
}

/// Gives the writer all of the bytes, and has it keep none back. After an error it took a front
/// of them. A write that takes nothing of bytes that are left is an error.
pub fn write_whole<W: Write>(writer: &mut W, bytes: &[u8]) -> Result<(), WriteStop>
    ensures ok { OnOk result (Appends (W.contents writer.old) (W.contents writer.new) bytes.now) }
    ensures failed { OnErr result
        (TookFront (W.contents writer.old) (W.contents writer.new) bytes.now) }
    ensures only_failed { IsOkUnless result WriteStop.Failed }
{
    let mut rest = bytes;
    for _ in 0..u64::MAX {
        if rest.is_empty() {
            return match writer.flush() {
                Ok(()) => Ok(()),
                Err(_) => Err(WriteStop::Failed),
            };
        }
        let taken = write_some(writer, rest)?;
        rest = &rest[taken..];
    }
    Err(WriteStop::Failed)
}

// One write, and how many bytes it took: none where a signal came first.
fn write_some<W: Write>(writer: &mut W, bytes: &[u8]) -> Result<usize, WriteStop>
    ensures bound { IfOk result (λ taken. taken ≤ length bytes.now) }
    ensures ok { IfOk result
        (λ taken. Appends (W.contents writer.old) (W.contents writer.new) (take taken bytes.now)) }
    ensures failed { OnErr result (Keeps (W.contents writer.old) (W.contents writer.new)) }
    ensures only_failed { IsOkUnless result WriteStop.Failed }
{
    match writer.write(bytes) {
        Ok(0) => Err(WriteStop::Failed),
        Ok(taken) => Ok(taken),
        Err(e) if e.kind() == ErrorKind::Interrupted => Ok(0),
        Err(_) => Err(WriteStop::Failed),
    }
}
