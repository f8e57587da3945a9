//! The forms of commands.
ghost use Rattle.std.specs.Prelude.{◌≡◌, ◌&&◌, is_none, option_map};
ghost use Rattle.ml_words.specs.Forms.{asked_by, check_of, form_of, make_of, sessions_of};
ghost use Rattle.ml_words.specs.Seen.{form_seen, named_seen, texts, walk_seen, words_seen};

use crate::digits::made_number;
use crate::limits::MAX_SCRIPTS;
use crate::named::Named;
use crate::walk::Walk;
use crate::words::Words;

/// The form of a command's words.
#[derive(Clone, Copy, Debug, PartialEq, Eq)]
pub enum Form {
    Sessions(bool),
    Check,
    Make,
}

impl Form {
    /// The form that a command word names.
    pub fn of(word: &str) -> Option<Form>
        ensures { option_map form_seen result ≡ form_of word.now }
    {
        match word {
            "serial" => Some(Form::Sessions(false)),
            "run" => Some(Form::Sessions(true)),
            "check" => Some(Form::Check),
            "make" => Some(Form::Make),
            _ => None,
        }
    }
}

/// What the walk over the words of this form comes to.
pub fn command_from(form: Form, words: &[&str], walk: Walk) -> Option<Words>
    ensures { option_map words_seen result
        ≡ asked_by (form_seen form) (texts words.now) (walk_seen walk) }
{
    if !walk.is_over() {
        return None;
    }
    let image = walk.image.at_most_once()?;
    let save = walk.save.at_most_once()?;
    match form {
        Form::Sessions(threads) => sessions_of(threads, image, save, walk.names),
        Form::Check if has_none(&image, &save) => check_of(&walk.names),
        Form::Make if has_none(&image, &save) => make_of(words, &walk.names),
        _ => None,
    }
}

// Whether neither option was there.
fn has_none(image: &Option<Named>, save: &Option<Named>) -> bool
    ensures { result ≡ is_none image.now && is_none save.now }
{
    image.is_none() && save.is_none()
}

// The rules, and at most so many scripts.
fn sessions_of(
    threads: bool,
    image: Option<Named>,
    save: Option<Named>,
    names: Vec<usize>,
) -> Option<Words>
    ensures { option_map words_seen result
        ≡ sessions_of threads (option_map named_seen image) (option_map named_seen save)
        names.items }
{
    let mut scripts = names;
    if scripts.is_empty() {
        return None;
    }
    let rules = scripts.remove(0);
    if scripts.len() > MAX_SCRIPTS {
        return None;
    }
    Some(Words::Sessions {
        threads,
        rules,
        image,
        save,
        scripts,
    })
}

// The rules and the image, and no more.
fn check_of(names: &[usize]) -> Option<Words>
    ensures { option_map words_seen result ≡ check_of names.now }
{
    match names {
        [rules, image] => Some(Words::Check {
            rules: *rules,
            image: *image,
        }),
        _ => None,
    }
}

// The number alone.
fn make_of(words: &[&str], names: &[usize]) -> Option<Words>
    ensures { option_map words_seen result ≡ make_of (texts words.now) names.now }
{
    match names {
        [number] => Some(Words::Make(made_number(words.get(*number)?)?)),
        _ => None,
    }
}
