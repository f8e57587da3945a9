//! Deaths of sessions.
ghost use Rattle.std.specs.Prelude.{◌≡◌, IfOk};

use crate::mode::Mode;
use ml_bits::Bits;
use std::alloc::AllocError;

/// Why a session died: what it asked for, and the session that its desk found in its way. Sessions
/// are numbered from 1, and a smaller number is older.
#[derive(Drop)]
pub struct Death {
    /// The session that asked and died.
    pub session: u32,
    /// The session that holds the unit.
    pub holder: u32,
    /// The declaration whose file the unit is of, from 0.
    pub pred: u32,
    /// The unit: the prefix of a region of that file.
    pub unit: Bits,
    /// The mode that was asked for.
    pub mode: Mode,
}

impl Death {
    /// An equal death.
    pub fn copy_of(&self) -> Result<Death, AllocError>
        ensures { IfOk result (λ death. death ≡ self.now) }
    {
        Ok(Death {
            session: self.session,
            holder: self.holder,
            pred: self.pred,
            unit: self.unit.copy_of()?,
            mode: self.mode,
        })
    }
}
