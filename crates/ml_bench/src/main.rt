//! Works that are timed from outside. The first word names the work and the second its size; each
//! work is done as often as makes it long enough to be timed, and stands in a file of its own. It
//! stands on the crates whose work it does. No layer stands above it.
#![tactic(auto)]

mod append;
mod compare;
mod copy;
mod enter;
mod evaluate;
mod fill;
mod ground;
mod insert;
mod lists;
mod matches;
mod read;
mod regions;
mod relation;
mod round;
mod rules;
mod tuples;
mod unify;

use append::append;
use compare::compare;
use copy::copy;
use enter::enter;
use evaluate::evaluate;
use fill::fill;
use ground::ground;
use insert::insert;
use matches::matches;
use read::read;
use regions::{COUNTED, RegionsLookedAt, regions};
use relation::Given;
use rules::rules;
use std::alloc::{AllocError, Global};
use std::process::ExitCode;
use std::{env, io};
use tuples::Width;
use unify::unify;

fn main(rt: HostRuntime) -> io::Result<ExitCode> {
    let mut words = Vec::new(rt.alloc());
    for word in env::args(&rt)?.skip(1) {
        words.push(word)?;
    }
    let [work, size] = words.as_slice() else {
        return usage(&rt);
    };
    let Ok(count) = size.parse::<u32>() else {
        return usage(&rt);
    };
    if let Some((width, given)) = question_of(work.as_str(), "regions") {
        let looked = regions(rt.alloc(), width, given, count);
        return tell_regions(&rt, work.as_str(), count, looked);
    }
    match run_work(rt.alloc(), work.as_str(), count) {
        Ok(Some(true)) => println!(rt; "{work} {count}: done")?,
        Ok(Some(false)) => println!(rt; "{work} {count}: not as wanted")?,
        Ok(None) => return usage(&rt),
        Err(_) => println!(rt; "{work} {count}: out of memory")?,
    }
    Ok(ExitCode::SUCCESS)
}

// Does a work, and says whether all went as wanted. None is named otherwise.
fn run_work(alloc: Global, work: &str, count: u32) -> Result<Option<bool>, AllocError> {
    if let Some((width, given)) = question_of(work, "match") {
        return Ok(Some(matches(alloc, width, given, count)?));
    }
    match work {
        "append" => Ok(Some(append(alloc, count)?)),
        "unify" => Ok(Some(unify(alloc, count)?)),
        "ground" => Ok(Some(ground(alloc, count)?)),
        "copy" => Ok(Some(copy(alloc, count)?)),
        "compare" => Ok(Some(compare(alloc, count)?)),
        "enter" => Ok(Some(enter(alloc, count)?)),
        "evaluate" => Ok(Some(evaluate(alloc, count)?)),
        "read" => Ok(Some(read(alloc, count)?)),
        "rules" => Ok(Some(rules(alloc, count)?)),
        "fill2" => Ok(Some(fill(alloc, Width::Two, count)?)),
        "fill3" => Ok(Some(fill(alloc, Width::Three, count)?)),
        "insert2" => Ok(Some(insert(alloc, Width::Two, count)?)),
        "insert3" => Ok(Some(insert(alloc, Width::Three, count)?)),
        _ => Ok(None),
    }
}

// The tuples that a word of this kind names behind its beginning: how many arguments they have, and
// which of them are given.
fn question_of(work: &str, kind: &str) -> Option<(Width, Given)> {
    match work.strip_prefix(kind)? {
        "2none" => Some((Width::Two, Given::Neither)),
        "2first" => Some((Width::Two, Given::First)),
        "2second" => Some((Width::Two, Given::Second)),
        "2both" => Some((Width::Two, Given::Both)),
        "3none" => Some((Width::Three, Given::Neither)),
        "3first" => Some((Width::Three, Given::First)),
        "3second" => Some((Width::Three, Given::Second)),
        "3both" => Some((Width::Three, Given::Both)),
        _ => None,
    }
}

// Tells how many regions matches look at.
fn tell_regions(
    rt: &HostRuntime,
    work: &str,
    count: u32,
    looked: Result<Option<RegionsLookedAt>, AllocError>,
) -> io::Result<ExitCode> {
    match looked {
        Ok(Some(RegionsLookedAt { looked_at, all })) => {
            println!(rt; "{work} {count}: {COUNTED} matches look at {looked_at} of {all} regions")?;
        }
        Ok(None) => println!(rt; "{work} {count}: not as wanted")?,
        Err(_) => println!(rt; "{work} {count}: out of memory")?,
    }
    Ok(ExitCode::SUCCESS)
}

// Tells what the words may be.
fn usage(rt: &HostRuntime) -> io::Result<ExitCode> {
    println!(rt; "ml_bench WORK N, where WORK is one of")?;
    println!(rt;
        "unify ground append copy compare enter evaluate read rules fill2 fill3 insert2 insert3"
    )?;
    println!(rt; "match2none match2first match2second match2both")?;
    println!(rt; "match3none match3first match3second match3both")?;
    println!(rt; "regions2none regions2first regions2second regions2both")?;
    println!(rt; "regions3none regions3first regions3second regions3both")?;
    Ok(ExitCode::from(2))
}
