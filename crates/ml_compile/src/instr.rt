//! Instructions.

use ml_term::{Name, Pred};

/// One instruction. It holds numbers and names, never a term. Offsets are counted from the
/// instruction's own place.
#[derive(Drop)]
pub enum Instr {
    /// The first instruction of a clause: so many variables are created.
    Enter(u32),

    /// In a head: a variable that the head has not met before, from the left.
    GetFirst(u32),
    /// In a head: a variable that the head has met before.
    GetAgain(u32),
    /// In a head: an integer.
    GetInt(i64),
    /// In a head: an atom.
    GetAtom(Name),
    /// In a head: a compound of a name and so many arguments, which follow from the left. The last
    /// number is how many instructions the whole compound takes, this one among them.
    GetCmp(Name, u8, usize),

    /// An argument of a goal: a variable.
    PutVar(u32),
    /// An argument of a goal: an integer.
    PutInt(i64),
    /// An argument of a goal: an atom.
    PutAtom(Name),
    /// An argument of a goal: the compound of a name and of the last so many terms that were built.
    PutCmp(Name, u8),

    /// A goal: it takes as many built terms as its predicate has arguments.
    Call(Pred),
    /// The end of a block.
    Proceed,
    /// `true`.
    True,
    /// `fail`.
    Fail,
    /// `!`: it cuts to the height of its block.
    Cut,
    /// `(A ; B)`: the block of A stands next, that of B at the first offset, and what follows the
    /// disjunction at the second.
    Try(usize, usize),
    /// `(C -> T ; E)`: the block of C stands next, that of T at the first offset, that of E at the
    /// second, and what follows at the third.
    Choose(usize, usize, usize),
}
