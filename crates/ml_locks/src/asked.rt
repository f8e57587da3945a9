//! What a session that asks for units comes to.

use ml_desk::Death;

/// What a session that asks for units comes to. All answers but `Granted` change nothing.
#[derive(Drop)]
pub enum Asked {
    /// Nobody was in the way, and the session holds the units.
    Granted,
    /// All sessions in the way are younger. This is the oldest of them.
    Wait(u32),
    /// Some session in the way is older, and the one that asked is to die.
    Died(Death),
    /// Memory was refused.
    OutOfMemory,
}
