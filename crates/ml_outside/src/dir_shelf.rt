//! The files of a folder as a shelf: the trusted edge. It tells nothing of what a file holds.
ghost use Rattle.std.specs.Prelude.{◌≡◌, ◌≤◌, None, Some, length, IfOk, IfSome, IsErrOf};
ghost use Rattle.ml_outside.specs.Causes.{no_faults};
ghost use Rattle.ml_outside.specs.Held.{Finds};

use crate::transfer::{read_up_to, write_whole};
use crate::{FetchStop, PutStop, Shelf};
use std::alloc::Global;
use std::fs::{self, OpenFile};
use std::io::{ErrorKind, Read};
use std::marker::Model;
use std::rt::Files;

/// The files that the system finds under their names, from the folder that the program runs in.
///
/// Contracts see it as its two counts of faults, of 64 bits, which stand still at their last value.
#[derive(Drop)]
pub struct DirShelf<'a, R: Files> {
    rt: &'a R,
    faults: u64,
    put_faults: u64,
}

impl<'a, R: Files> Model for DirShelf<'a, R> {
    ghost use Rattle.ml_outside.specs.Causes.{Counts};

    ghost Value = { Counts };

    ghost view = { λ shelf. record { faults = shelf.faults; put_faults = shelf.put_faults } };
}

impl<'a, R: Files> DirShelf<'a, R> {
    /// A shelf over the files of the runtime, with no fault counted.
    pub fn new(rt: &'a R) -> Self
        ensures { result ≡ no_faults }
    {
        DirShelf {
            rt,
            faults: 0,
            put_faults: 0,
        }
    }
}

impl<R: Files> Shelf for DirShelf<'_, R> {
    ghost held = { λ _. None };

    ghost faults = { λ shelf. shelf.faults };

    ghost put_faults = { λ shelf. shelf.put_faults };

    /// A missing file is `Absent`. Every other fault of opening or reading is counted, and so is
    /// a file that ends before the length that the system tells of it.
    fn fetch(&mut self, alloc: Global, name: &str, limit: usize) -> Result<Vec<u8>, FetchStop> {
        let result = read_named(self.rt, alloc, name, limit);
        if matches!(result, Err(FetchStop::Failed)) {
            self.faults = self.faults.saturating_add(1);
        }
        result
    }

    /// Writes the file anew. It takes no memory, so it never answers `OutOfMemory`.
    fn put(&mut self, _alloc: Global, name: &str, bytes: &[u8]) -> Result<(), PutStop> {
        if let Ok(mut file) = fs::create(self.rt, name) {
            if write_whole(&mut file, bytes).is_ok() {
                return Ok(());
            }
        }
        self.put_faults = self.put_faults.saturating_add(1);
        Err(PutStop::Failed)
    }
}

// The bytes of the file of this name.
fn read_named<R: Files>(
    rt: &R,
    alloc: Global,
    name: &str,
    limit: usize,
) -> Result<Vec<u8>, FetchStop>
    ensures limit { IfOk result (λ bytes. length bytes.items ≤ limit) }
{
    match fs::open(rt, name) {
        Ok(file) => read_open(alloc, file, limit),
        Err(e) if e.kind() == ErrorKind::NotFound => Err(FetchStop::Absent),
        Err(_) => Err(FetchStop::Failed),
    }
}

// The bytes of a file that was opened. It was cut short if it ends before its told length.
fn read_open<F: Read + OpenFile + Drop>(
    alloc: Global,
    file: F,
    limit: usize,
) -> Result<Vec<u8>, FetchStop>
    ensures limit { IfOk result (λ bytes. length bytes.items ≤ limit) }
    ensures content { IfSome (F.remaining file) (λ all. Finds (Some all) limit result) }
    ensures present { IsErrOf result FetchStop.Absent → ⊥ }
{
    let Ok(about) = file.metadata() else {
        return Err(FetchStop::Failed);
    };
    let bytes = read_up_to(alloc, file, limit)?;
    if (bytes.len() as u64) < about.len() {
        return Err(FetchStop::Failed);
    }
    Ok(bytes)
}

#[cfg(test)]
mod tests;
