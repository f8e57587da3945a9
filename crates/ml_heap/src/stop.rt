//! Why a term wasn't taken out of a heap.
ghost use Rattle.std.specs.Prelude.{◌≡◌};
ghost use Rattle.ml_heap.specs.declared.stop.TreeStop.TheVariants as tree_stop;

use std::alloc::AllocError;

/// Why a term wasn't taken out of a heap.
#[derive(Clone, Copy, Debug, PartialEq, Eq)]
pub enum TreeStop {
    /// The term has more than 4,096 nodes.
    TooLarge,
    /// Memory was refused.
    OutOfMemory,
}

impl From<AllocError> for TreeStop {
    ghost from_gives = { λ _ stop. stop ≡ tree_stop.OutOfMemory };

    fn from(_: AllocError) -> Self {
        TreeStop::OutOfMemory
    }
}
