//! How sessions end.
ghost use Rattle.ml_search.specs.Endings.{entry_ending};
ghost use Rattle.std.specs.Prelude.{◌≡◌};

/// How a session ends.
#[derive(Clone, Copy)]
pub enum Ending {
    /// Its changes stay.
    Committed,
    /// Its script says that they don't.
    Aborted,
    /// The goal that was to have no answer has one.
    Refused,
    /// The goal with this number, from 1, raised a term.
    Failed(u32),
}

/// How an entry of a history ended.
#[derive(Clone, Copy)]
pub enum EntryEnding {
    /// Its changes stay.
    Committed,
    /// Its script says that they don't.
    Aborted,
    /// The goal that was to have no answer has one.
    Refused,
    /// The goal with this number, from 1, raised a term.
    Failed(u32),
    /// The session found no memory; it has no lines and changed nothing.
    OutOfMemory,
}

impl EntryEnding {
    /// The ending of the entry of a session that ended like this.
    pub fn of(ending: Ending) -> EntryEnding
        ensures { result ≡ entry_ending ending }
    {
        match ending {
            Ending::Committed => EntryEnding::Committed,
            Ending::Aborted => EntryEnding::Aborted,
            Ending::Refused => EntryEnding::Refused,
            Ending::Failed(j) => EntryEnding::Failed(j),
        }
    }
}
