//! Why a desk gave no reply.
ghost use Rattle.std.specs.Prelude.{◌≡◌};
ghost use Rattle.ml_desk.specs.declared.stop.DeskStop.TheVariants as desk_stop;

use crate::death::Death;
use std::alloc::AllocError;

/// Why a desk gave no reply. The attempt of its session is over then.
#[derive(Drop)]
pub enum DeskStop {
    /// The session died. Its changes were taken back.
    Died(Death),
    /// Memory was refused, to the desk or to who asked it. The session is alive, and its log begins
    /// with what was answered until then. The last operation may stand behind that, carried out,
    /// though nobody got its reply; so the session's owner is to take its changes back.
    OutOfMemory,
}

impl From<AllocError> for DeskStop {
    ghost from_gives = { λ _ stop. stop ≡ desk_stop.OutOfMemory };

    fn from(_: AllocError) -> DeskStop {
        DeskStop::OutOfMemory
    }
}
