//! What comes of a change.
ghost use Rattle.std.specs.Prelude.{◌≡◌};
ghost use Rattle.ml_list_desk.specs.inside.Outcomes.{count_of, outcome_reply};

use ml_search::Reply;

/// What comes of a change that a desk is asked for.
#[derive(Clone, Copy)]
pub(crate) enum Outcome {
    /// A tuple or clause was put in.
    Added,
    /// The tuple was there before.
    Present,
    /// A tuple or clause was taken out.
    Removed,
    /// The tuple or clause wasn't there.
    Absent,
    /// Too many changes were made before.
    Full,
}

impl Outcome {
    /// The reply that tells it. It takes no memory.
    pub fn reply(self) -> Reply
        ensures { result ≡ outcome_reply self }
    {
        match self {
            Outcome::Added => Reply::Added,
            Outcome::Present => Reply::Present,
            Outcome::Removed => Reply::Removed,
            Outcome::Absent => Reply::Absent,
            Outcome::Full => Reply::Full,
        }
    }

    /// How many changes it is: one or none.
    pub fn count(self) -> u32
        ensures { result ≡ count_of self }
    {
        match self {
            Outcome::Added => 1,
            Outcome::Removed => 1,
            _ => 0,
        }
    }
}
