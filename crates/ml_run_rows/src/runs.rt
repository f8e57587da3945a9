//! Runs of one script, with files and output in memory.

use ml_outside::{MemShelf, MemSink, PutStop, Shelf};
use ml_run::{Status, serial};
use std::alloc::Global;
use std::process::Abort;

const WORDS: [&str; 3] = ["serial", "rules.pl", "s1"];

/// What the run of a script over rules printed. It must end well.
pub fn run(
    rt: &impl Abort,
    alloc: Global,
    rules: &[u8],
    script: &[u8],
) -> Result<MemSink, PutStop> {
    let mut shelf = MemShelf::new(alloc);
    shelf.put(alloc, "rules.pl", rules)?;
    shelf.put(alloc, "s1", script)?;
    let mut out = MemSink::new(alloc);
    let status = serial(alloc, &WORDS, &mut shelf, &mut out);
    assert_eq!(rt; status, Status::Done);
    Ok(out)
}

/// Compares what the run of a script over rules prints with what it must print.
pub fn check(
    rt: &impl Abort,
    alloc: Global,
    rules: &[u8],
    script: &[u8],
    want: &[u8],
) -> Result<(), PutStop> {
    let out = run(rt, alloc, rules, script)?;
    assert_eq!(rt; out.bytes(), want, "{script:?}");
    Ok(())
}
