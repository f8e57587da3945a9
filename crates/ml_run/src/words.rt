//! The words of the command.
ghost use Rattle.std.specs.Prelude.{◌≡◌, codes, IsTrue, IfSome, IfNone};
ghost use Rattle.std.specs.List.{list_all};
ghost use Rattle.ml_run.specs.Words.{texts, is_file_name, AreWords, AreBad};

use crate::limits::MAX_SCRIPTS;

/// The names of the rules and of the scripts, if the words are `serial RULES SCRIPT*`.
pub fn names_of<'w, 'a>(words: &'w [&'a str]) -> Option<(&'a str, &'w [&'a str])>
    ensures some { IfSome result
        (λ names. AreWords (texts words.now) names.0.now (texts names.1.now)) }
    ensures none { IfNone result (AreBad (texts words.now)) }
{
    let (command, rest) = words.split_first()?;
    let (rules, scripts) = rest.split_first()?;
    if !is_serial(command) {
        return None;
    }
    if !is_file_name(rules) {
        return None;
    }
    if scripts.len() > MAX_SCRIPTS {
        return None;
    }
    if !are_names(scripts) {
        return None;
    }
    Some((*rules, scripts))
}

fn is_serial(word: &str) -> bool
    ensures yes { IsTrue result → word.now ≡ codes "serial" }
    ensures no { word.now ≡ codes "serial" → IsTrue result }
{
    word == "serial"
}

// Whether a word may be a name: it isn't empty and doesn't begin with `-`.
fn is_file_name(word: &str) -> bool
    ensures { result ≡ is_file_name word.now }
{
    match word.as_bytes() {
        [] => false,
        [b, ..] => *b != b'-',
    }
}

// Whether all words may be names.
fn are_names(words: &[&str]) -> bool
    ensures { result ≡ list_all is_file_name (texts words.now) }
{
    match words.split_first() {
        None => true,
        Some((word, rest)) => is_file_name(word) && are_names(rest),
    }
}
