//! The commands as `clap` knows them.
ghost use Rattle.std.specs.Prelude.{◌≡◌, ◌≢◌, IfOk, MatchResult, true, false};
ghost use Rattle.clap.specs.Words.{app_of, is_simple_and_free, kind_of, rule_of};
ghost use Rattle.ml_words.specs.Commands.{check_app, make_app, name_rule, option_rule, sessions_app, takes};
ghost use Rattle.ml_words.specs.Forms.{app_of_form};
ghost use Rattle.ml_words.specs.Seen.{form_seen, texts};
ghost use Rattle.ml_words.specs.declared.words.WordsStop.TheVariants.{Bad};

use crate::form::Form;
use crate::limits::MAX_SCRIPTS;
use crate::words::WordsStop;
use clap::error::ErrorKind;
use clap::{Arg, ArgAction, Command, Error};
use std::alloc::{AllocError, Global};

impl Form {
    /// Checks that the command takes the words, the command word first.
    pub fn check(self, alloc: Global, words: &[&str]) -> Result<(), WordsStop>
        ensures { MatchResult result
            (λ done. takes (app_of_form (form_seen self)) (texts words.now) ≡ true)
            (λ stop. stop ≡ Bad → takes (app_of_form (form_seen self)) (texts words.now) ≡ false) }
    {
        match self {
            Form::Sessions(_) => check_with(sessions_command(alloc)?, words),
            Form::Check => check_with(check_command(alloc)?, words),
            Form::Make => check_with(make_command(alloc)?, words),
        }
    }
}

// Checks that a command takes the words.
fn check_with<'a>(command: Command<'a>, words: &'a [&'a str]) -> Result<(), WordsStop>
    requires { is_simple_and_free (app_of command) ≡ true }
    ensures { MatchResult result (λ done. takes (app_of command.entry) (texts words.now) ≡ true)
        (λ stop. stop ≡ Bad → takes (app_of command.entry) (texts words.now) ≡ false) }
{
    match command.try_get_matches_from(words) {
        Ok(_matches) => Ok(()),
        Err(error) => Err(stop_of(error)),
    }
}

// Why words aren't read, by the error of a parse.
fn stop_of(error: Error) -> WordsStop
    ensures { result ≡ Bad → kind_of error ≢ ErrorKind.OutOfMemory }
{
    match error.kind() {
        ErrorKind::OutOfMemory => WordsStop::OutOfMemory,
        _ => WordsStop::Bad,
    }
}

// `serial` and `run`: two options, the rules, and the scripts.
fn sessions_command<'a>(alloc: Global) -> Result<Command<'a>, AllocError>
    ensures { IfOk result (λ command. app_of command ≡ sessions_app) }
{
    let image = option(alloc, "image");
    let save = option(alloc, "save");
    let rules = name(alloc, "rules");
    let scripts = Arg::new(alloc, "scripts")
        .num_args(0..=MAX_SCRIPTS)
        .action(ArgAction::Append);
    let command = Command::new(alloc, "sessions")
        .arg(image)?
        .arg(save)?
        .arg(rules)?
        .arg(scripts)?;
    Ok(command)
}

// `check`: the rules and the image.
fn check_command<'a>(alloc: Global) -> Result<Command<'a>, AllocError>
    ensures { IfOk result (λ command. app_of command ≡ check_app) }
{
    let rules = name(alloc, "rules");
    let image = name(alloc, "image");
    Command::new(alloc, "check").arg(rules)?.arg(image)
}

// `make`: the number.
fn make_command<'a>(alloc: Global) -> Result<Command<'a>, AllocError>
    ensures { IfOk result (λ command. app_of command ≡ make_app) }
{
    Command::new(alloc, "make").arg(name(alloc, "number"))
}

// An option `--NAME`, at most once, with one value.
fn option<'a>(alloc: Global, name: &'a str) -> Arg<'a>
    ensures rule { rule_of result ≡ option_rule name.now }
    ensures local { result.global ≡ false }
{
    Arg::new(alloc, name).long(name).action(ArgAction::Set)
}

// One positional name that must be there.
fn name<'a>(alloc: Global, name: &'a str) -> Arg<'a>
    ensures rule { rule_of result ≡ name_rule name.now }
    ensures local { result.global ≡ false }
{
    Arg::new(alloc, name).required(true).action(ArgAction::Set)
}
