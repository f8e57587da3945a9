//! Frames, by which a branch goes on.

use crate::moment::Moment;
use ml_heap::Ref;

/// A place in a continuation: 0 is its end, and 1 + i the frame i.
pub type FrameLink = usize;

/// Where instructions stand: those of a clause, by its procedure and its place there, or those of
/// a body that was called, by its place among the called ones.
#[derive(Clone, Copy)]
pub enum CodeName {
    OfClause(u32, u32),
    Called(u32),
}

/// A place in a block of instructions. Its environment is where the clause's first variable has its
/// slot, and a cut in the block leaves as many choice points as its height.
#[derive(Clone, Copy)]
pub struct At {
    pub code: CodeName,
    pub place: usize,
    pub env: usize,
    pub height: usize,
    pub next: FrameLink,
}

/// What stands at a link, each with what stands behind it.
#[derive(Clone, Copy)]
pub enum Frame {
    /// The rest of a block.
    Body(At),
    /// The choice points above a height go.
    Cut(usize, FrameLink),
    /// They go, and then the branch fails: what stands behind the goal of `\+`.
    Refute(usize, FrameLink),
    /// A `catch/3`: the choice points and the moment at its call, its catcher and its recovery.
    Caught {
        height: usize,
        moment: Moment,
        catcher: Ref,
        recovery: Ref,
        next: FrameLink,
    },
}
