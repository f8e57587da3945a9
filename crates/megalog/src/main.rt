//! The program: it runs `serial` over the files of the folder that it is started in and over
//! standard output. It stands on ml_run, which does all of the work, and on ml_outside for the real
//! shelf and sink. No layer stands above it. Where the run didn't end well, its line goes to
//! standard error, and the program ends with the status's number.
#![tactic(auto)]

ghost use Rattle.std.specs.Prelude.{length, IfErr};
ghost use Rattle.ml_run.specs.Status.{NamesWord};

use ml_outside::{DirShelf, OutSink};
use ml_run::{Status, line_of, serial};
use std::alloc::AllocError;
use std::env;
use std::io::{ErrorKind, Write};
use std::process::ExitCode;

fn main(rt: HostRuntime) -> ExitCode {
    let words = match words_of(&rt) {
        Ok(words) => words,
        Err(status) => return ended(&rt, &status, &[]),
    };
    let Ok(words) = texts_of(&rt, &words) else {
        return ended(&rt, &Status::OutOfMemory, &[]);
    };
    let mut shelf = DirShelf::new(&rt);
    let mut out = OutSink::new(&rt);
    let status = serial(rt.alloc(), &words, &mut shelf, &mut out);
    ended(&rt, &status, &words)
}

// The words after the program's name. Where one isn't text, the words are bad.
fn words_of(rt: &HostRuntime) -> Result<Vec<String>, Status>
    ensures { IfErr result (NamesWord 0) }
{
    let args = match env::args(rt) {
        Ok(args) => args,
        Err(e) if e.kind() == ErrorKind::OutOfMemory => return Err(Status::OutOfMemory),
        Err(_) => return Err(Status::BadWords),
    };
    let mut words = Vec::new(rt.alloc());
    for word in args.skip(1) {
        if words.push(word).is_err() {
            return Err(Status::OutOfMemory);
        }
    }
    Ok(words)
}

fn texts_of<'a>(rt: &HostRuntime, words: &'a [String]) -> Result<Vec<&'a str>, AllocError> {
    let mut texts = Vec::new(rt.alloc());
    for word in words {
        texts.push(word.as_str())?;
    }
    Ok(texts)
}

// Tells of the status on standard error, and gives its number.
fn ended(rt: &HostRuntime, status: &Status, words: &[&str]) -> ExitCode
    requires { NamesWord (length words.now) status.now }
{
    if let Ok(line) = line_of(rt.alloc(), status, words) {
        let _ = rt.stderr().write_all(&line);
    }
    ExitCode::from(status.number())
}
