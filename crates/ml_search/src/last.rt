//! How a script ends.
ghost use Rattle.std.specs.Prelude.{◌≡◌, IfOk};

use crate::goal::Goal;
use std::alloc::{AllocError, Global};

/// How a script ends: it commits, it aborts, or it commits unless a goal has an answer.
#[derive(Drop)]
pub enum Last {
    Commit,
    Abort,
    Unless(Goal),
}

impl Last {
    /// An equal end.
    pub fn copy_of(&self, alloc: Global) -> Result<Last, AllocError>
        ensures { IfOk result (λ last. last ≡ self.now) }
    {
        match self {
            Last::Commit => Ok(Last::Commit),
            Last::Abort => Ok(Last::Abort),
            Last::Unless(goal) => Ok(Last::Unless(goal.copy_of(alloc)?)),
        }
    }
}
