//! Where and why a text is no text of clauses, of rules or of a script.
ghost use Rattle.std.specs.Prelude.{◌≡◌};
ghost use Rattle.ml_reader.specs.declared.fault.ReadStop.TheVariants as read_stop;

use std::alloc::{AllocError, AllocFailed};

/// Why a text was refused.
#[derive(Clone, Copy, Debug, PartialEq, Eq)]
pub enum ReadKind {
    /// A byte that begins no token, or one that may not stand in a quoted name.
    BadCharacter,
    /// A quoted name that its line or the text ends.
    OpenQuote,
    /// A comment that nothing closes.
    OpenComment,
    /// A backslash before another byte than those of an escape.
    BadEscape,
    /// A number out of range.
    NumberTooLarge,
    /// A name of more than 255 bytes.
    NameTooLong,
    /// A double quote or a back quote, which begin nothing here.
    LeftOutQuote,
    /// The token that opens level 1,001.
    TooDeep,
    /// The comma that begins argument 256.
    ArityTooLarge,
    /// Token 16,385 of a clause.
    ClauseTooLong,
    /// The first token with which no text goes on, though some text would if no priority counted.
    PriorityClash,
    /// The first token with which no text goes on, whatever the priorities; or the end of the text
    /// inside a clause.
    Unexpected,
    /// A clause of more than 4,096 nodes. The place of its first token.
    TooManyNodes,
    /// A term `:- T` that declares nothing, or what can't be declared. The place of its first
    /// token.
    BadDeclaration,
    /// A predicate that was declared before. The place of the declaration's first token.
    TwiceDeclared,
    /// A clause whose head or body can't be one, or one that its relation can't hold. The place of
    /// its first token.
    BadClause,
    /// An item of more than 4,096 canonical bytes. The place of its first token.
    ItemTooLarge,
    /// A clause that no script has at that place. The place of its first token.
    BadScriptItem,
}

/// The first fault of a text, and its place: a number of bytes from the text's beginning.
#[derive(Clone, Copy, Debug, PartialEq, Eq)]
pub struct ReadFault {
    pub place: usize,
    pub kind: ReadKind,
}

/// Why a text isn't read.
#[derive(Clone, Copy, Debug, PartialEq, Eq)]
pub enum ReadStop {
    /// The text's first fault.
    Fault(ReadFault),
    /// Memory was refused.
    OutOfMemory,
}

impl From<AllocError> for ReadStop {
    ghost from_gives = { λ _ stop. stop ≡ read_stop.OutOfMemory };

    fn from(_: AllocError) -> Self {
        ReadStop::OutOfMemory
    }
}

impl<T: Drop> From<AllocFailed<T>> for ReadStop {
    ghost from_gives = { λ _ stop. stop ≡ read_stop.OutOfMemory };

    fn from(_: AllocFailed<T>) -> Self {
        ReadStop::OutOfMemory
    }
}
