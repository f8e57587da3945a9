//! The walk that finds the places of names.
ghost use Rattle.std.specs.Prelude.{◌≡◌, IfOk, option_map};
ghost use Rattle.ml_words.specs.Forms.{at_most_once, is_over};
ghost use Rattle.ml_words.specs.Walks.{behind_look, behind_word, image_at, look_of, one_more};
ghost use Rattle.ml_words.specs.Walks.{save_at, walk_over, walk_start};
ghost use Rattle.ml_words.specs.Seen.{given_seen, look_seen, named_seen, next_seen, texts, walk_seen};

use crate::named::Named;
use std::alloc::{AllocError, Global};

/// How a word looks: `--image` or `--save`, `--image=NAME` or `--save=NAME`, `--`, or any other.
#[derive(Clone, Copy, Debug, PartialEq, Eq)]
pub enum Look {
    ImageOption,
    SaveOption,
    ImageAndName,
    SaveAndName,
    TwoDashes,
    Other,
}

/// The names that an option got: none, one, or more than one.
#[derive(Clone, Copy, Debug, PartialEq, Eq)]
pub enum Given {
    Never,
    Once(Named),
    Again,
}

/// What the next word is: of any look, the name of an option, or a positional name in any case.
#[derive(Clone, Copy, Debug, PartialEq, Eq)]
pub enum Next {
    AnyWord,
    NameOfImage,
    NameOfSave,
    OnlyNames,
}

/// Where the walk stands between two words, with the places of the positional names in order.
#[derive(Drop)]
pub struct Walk {
    pub next: Next,
    pub image: Given,
    pub save: Given,
    pub names: Vec<usize>,
}

/// How a word looks.
pub fn look_of(word: &str) -> Look
    ensures { look_seen result ≡ look_of word.now }
{
    let bytes = word.as_bytes();
    if word == "--image" {
        Look::ImageOption
    } else if word == "--save" {
        Look::SaveOption
    } else if bytes.starts_with(b"--image=") {
        Look::ImageAndName
    } else if bytes.starts_with(b"--save=") {
        Look::SaveAndName
    } else if word == "--" {
        Look::TwoDashes
    } else {
        Look::Other
    }
}

impl Given {
    /// One more name.
    pub fn one_more(self, name: Named) -> Given
        ensures { given_seen result ≡ one_more (named_seen name) (given_seen self) }
    {
        match self {
            Given::Never => Given::Once(name),
            _ => Given::Again,
        }
    }

    /// The name, if there was at most one.
    pub fn at_most_once(self) -> Option<Option<Named>>
        ensures { option_map (option_map named_seen) result ≡ at_most_once (given_seen self) }
    {
        match self {
            Given::Never => Some(None),
            Given::Once(name) => Some(Some(name)),
            Given::Again => None,
        }
    }
}

impl Walk {
    /// Nothing was looked at.
    pub fn start(alloc: Global) -> Walk
        ensures { walk_seen result ≡ walk_start }
    {
        Walk {
            next: Next::AnyWord,
            image: Given::Never,
            save: Given::Never,
            names: Vec::new(alloc),
        }
    }

    /// Whether no option waits for its name.
    pub fn is_over(&self) -> bool
        ensures { result ≡ is_over (next_seen self.now.next) }
    {
        match self.next {
            Next::AnyWord | Next::OnlyNames => true,
            Next::NameOfImage | Next::NameOfSave => false,
        }
    }

    // Passes one more word, which stands at this place.
    fn pass(&mut self, place: usize, word: &str) -> Result<(), AllocError>
        ensures { IfOk result
            (λ done. walk_seen self.new ≡ behind_word place word.now (walk_seen self.old)) }
    {
        match self.next {
            Next::AnyWord => self.pass_look(place, look_of(word))?,
            Next::NameOfImage => self.image_at(place, 0),
            Next::NameOfSave => self.save_at(place, 0),
            Next::OnlyNames => self.names.push(place)?,
        }
        Ok(())
    }

    // Passes a word of this look, where no option waits for its name.
    fn pass_look(&mut self, place: usize, look: Look) -> Result<(), AllocError>
        ensures { IfOk result
            (λ done. walk_seen self.new ≡ behind_look (look_seen look) place (walk_seen self.old)) }
    {
        match look {
            Look::ImageOption => self.next = Next::NameOfImage,
            Look::SaveOption => self.next = Next::NameOfSave,
            Look::ImageAndName => self.image_at(place, 8),
            Look::SaveAndName => self.save_at(place, 7),
            Look::TwoDashes => self.next = Next::OnlyNames,
            Look::Other => self.names.push(place)?,
        }
        Ok(())
    }

    // An option's name at this place.
    fn image_at(&mut self, word: usize, from: usize)
        ensures { walk_seen self.new ≡ image_at word from (walk_seen self.old) }
    {
        self.image = self.image.one_more(Named { word, from });
        self.next = Next::AnyWord;
    }

    // The same of the other option.
    fn save_at(&mut self, word: usize, from: usize)
        ensures { walk_seen self.new ≡ save_at word from (walk_seen self.old) }
    {
        self.save = self.save.one_more(Named { word, from });
        self.next = Next::AnyWord;
    }
}

/// The whole walk over the words behind the command word, whose own place is 0.
pub fn walk_over(alloc: Global, words: &[&str]) -> Result<Walk, AllocError>
    ensures { IfOk result (λ w. walk_seen w ≡ walk_over (texts words.now)) }
{
    let mut found = Walk::start(alloc);
    for (i, word) in words.iter().enumerate() {
        found.pass(i + 1, word)?;
    }
    Ok(found)
}
