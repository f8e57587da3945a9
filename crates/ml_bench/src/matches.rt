//! Tuples of a file are asked for by some of their arguments.
use crate::fill::fill_relation;
use crate::relation::Given;
use crate::tuples::{TUPLES_A_VALUE, Width, asked_row};
use std::alloc::{AllocError, Global};

// How many answers the matches have together where no argument is given.
const ANSWERS: u32 = 400000;

// How many matches are made where one argument is given.
const MATCHES_OF_ONE: u32 = 1000;

// How many matches are made where both are given.
const MATCHES_OF_BOTH: u32 = 10000;

/// Makes matches in one file of so many tuples, 100 at least and a multiple of 10, and says whether
/// each has as many answers as wanted.
pub fn matches(alloc: Global, width: Width, given: Given, count: u32) -> Result<bool, AllocError> {
    let Some(relation) = fill_relation(alloc, width, count)? else {
        return Ok(false);
    };
    let wanted = answers_wanted(given, count) as usize;
    for n in 0..times_of(given, count) {
        if relation.answers(alloc, &asked_row(n, count), given)? != wanted {
            return Ok(false);
        }
    }
    Ok(true)
}

// How many matches are made. Where no argument is given, they are as many as make 400,000 answers
// in all, at least one.
fn times_of(given: Given, count: u32) -> u32 {
    match given {
        Given::Neither => (ANSWERS / count.max(1)).max(1),
        Given::First | Given::Second => MATCHES_OF_ONE,
        Given::Both => MATCHES_OF_BOTH,
    }
}

// How many answers a match has.
fn answers_wanted(given: Given, count: u32) -> u32 {
    match given {
        Given::Neither => count,
        Given::First | Given::Second => TUPLES_A_VALUE,
        Given::Both => 1,
    }
}
