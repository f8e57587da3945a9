//! A text of facts is read as rules of one relation. The time is to grow as the text.
use crate::read::MAX_TEXT_BYTES;
use ml_reader::{ReadStop, read_rules};
use std::alloc::{AllocError, Global};
use std::fmt::Write;

// How many facts are read in all.
const FACTS: u32 = 1000000;

/// Reads rules with so many facts again and again, and says whether it always was a text of rules.
pub fn rules(alloc: Global, count: u32) -> Result<bool, AllocError> {
    let text = facts(alloc, count)?;
    let times = FACTS / count.max(1);
    let mut always = true;
    for _ in 0..times.max(1) {
        always &= are_rules_read(alloc, text.as_bytes())?;
    }
    Ok(always)
}

// The declaration of a relation, and so many tuples of it, each with a number of its own.
fn facts(alloc: Global, count: u32) -> Result<String, AllocError> {
    let mut text = String::new(alloc);
    text.push_str(":- relation(q/2).\n")?;
    for n in 0..count {
        write!(text, "q({n}, name).\n")?;
    }
    Ok(text)
}

// Whether a text is one of rules.
fn are_rules_read(alloc: Global, text: &[u8]) -> Result<bool, AllocError> {
    if text.len() > MAX_TEXT_BYTES {
        return Ok(false);
    }
    match read_rules(alloc, text) {
        Ok(_rules) => Ok(true),
        Err(ReadStop::Fault(_)) => Ok(false),
        Err(ReadStop::OutOfMemory) => Err(AllocError),
    }
}
