//! The words of a command.
ghost use Rattle.std.specs.Prelude.{◌≡◌, MatchResult, None, Some};
ghost use Rattle.ml_words.specs.Forms.{command_of};
ghost use Rattle.ml_words.specs.Seen.{texts, words_seen};
ghost use Rattle.ml_words.specs.declared.words.WordsStop.TheVariants as words_stop;

use crate::form::{Form, command_from};
use crate::named::Named;
use crate::walk::walk_over;
use std::alloc::{AllocError, Global};

/// What the words ask for. Names are told by their places among the words, counted from 0 with the
/// command word.
#[derive(Drop)]
pub enum Words {
    /// `serial`, or `run`, whose sessions run in threads; with at most 64 scripts.
    Sessions {
        threads: bool,
        rules: usize,
        image: Option<Named>,
        save: Option<Named>,
        scripts: Vec<usize>,
    },
    /// `check`: the places of the names of the rules and of the image.
    Check {
        rules: usize,
        image: usize,
    },
    /// `make`, with its number, which is 1 to 20,000.
    Make(u32),
}

/// Why words aren't read: they are of no command's form, or memory was refused.
#[derive(Clone, Copy, Debug, PartialEq, Eq)]
pub enum WordsStop {
    Bad,
    OutOfMemory,
}

impl From<AllocError> for WordsStop {
    ghost from_gives = { λ _ stop. stop ≡ words_stop.OutOfMemory };

    fn from(_: AllocError) -> WordsStop {
        WordsStop::OutOfMemory
    }
}

/// What the words ask for, the command word first. `Bad` comes exactly where they are of no
/// command's form.
pub fn read_words(alloc: Global, words: &[&str]) -> Result<Words, WordsStop>
    ensures { MatchResult result (λ found. command_of (texts words.now) ≡ Some (words_seen found))
        (λ stop. stop ≡ words_stop.Bad → command_of (texts words.now) ≡ None) }
{
    let Some((word, rest)) = words.split_first() else {
        return Err(WordsStop::Bad);
    };
    let Some(form) = Form::of(word) else {
        return Err(WordsStop::Bad);
    };
    form.check(alloc, words)?;
    let found = walk_over(alloc, rest)?;
    match command_from(form, words, found) {
        Some(command) => Ok(command),
        None => Err(WordsStop::Bad),
    }
}
