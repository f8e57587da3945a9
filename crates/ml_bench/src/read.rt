//! A text of clauses is read. The time is to grow as the text.
use ml_reader::{ReadStop, read_clauses};
use std::alloc::{AllocError, Global};

// How many bytes are read in all.
const BYTES: u32 = 16777216;

/// The most bytes of a text that is read.
pub const MAX_TEXT_BYTES: usize = 4294967295;

// Two clauses, of 64 bytes together.
const CLAUSES: &[u8] = b"emp(17, ada, [tools|T]). colleague(A, B) :- emp(A), \\+ A == B.\n\n";

/// Reads the clauses of a text of so many bytes, or of up to 63 fewer, again and again, and says
/// whether it always was a text of clauses.
pub fn read(alloc: Global, count: u32) -> Result<bool, AllocError> {
    let text = clauses(alloc, count / 64)?;
    let times = BYTES / count.max(1);
    let mut always = true;
    for _ in 0..times.max(1) {
        always &= is_text_read(alloc, text.as_slice())?;
    }
    Ok(always)
}

// The two clauses, so many times.
fn clauses(alloc: Global, times: u32) -> Result<Vec<u8>, AllocError> {
    let mut text = Vec::new(alloc);
    for _ in 0..times {
        text.extend_from_slice(CLAUSES)?;
    }
    Ok(text)
}

// Whether a text is one of clauses.
fn is_text_read(alloc: Global, text: &[u8]) -> Result<bool, AllocError> {
    if text.len() > MAX_TEXT_BYTES {
        return Ok(false);
    }
    match read_clauses(alloc, text) {
        Ok(_clauses) => Ok(true),
        Err(ReadStop::Fault(_)) => Ok(false),
        Err(ReadStop::OutOfMemory) => Err(AllocError),
    }
}
