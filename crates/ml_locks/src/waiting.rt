//! Who is in the way of a request.
ghost use Rattle.std.specs.Prelude.{◌≡◌, ◌==◌, ◌&&◌, ℕ, Some, not};
ghost use Rattle.std.specs.List.{list_any};
ghost use Rattle.ml_locks.specs.Changes.{stronger};
ghost use Rattle.ml_locks.specs.Requests.{IsLeast, excludes};
ghost use Rattle.ml_locks.specs.inside.Waiting.{older};

use ml_desk::Mode;

/// Whether what one session holds of a unit excludes that another one holds it in a mode.
pub(crate) fn excludes_other(held: Mode, mode: Mode) -> bool
    ensures { result ≡ excludes (Some held) mode }
{
    match held {
        Mode::X => true,
        Mode::S => match mode {
            Mode::X => true,
            Mode::S => false,
        },
    }
}

/// The stronger of two modes.
pub(crate) fn stronger_of(mode: Mode, before: Mode) -> Mode
    ensures { result ≡ stronger mode (Some before) }
{
    match mode {
        Mode::X => Mode::X,
        Mode::S => before,
    }
}

/// The older of two sessions, where there may be none.
pub(crate) fn older_of(first: Option<u32>, second: Option<u32>) -> Option<u32>
    ensures { result ≡ older first second }
{
    match first {
        None => second,
        Some(first) => match second {
            None => Some(first),
            Some(second) => Some(first.min(second)),
        },
    }
}

/// The oldest of some sessions but one.
pub(crate) fn oldest_other(sessions: &[u32], asker: u32) -> Option<u32>
    ensures { IsLeast (λ k. not (k == asker) && list_any (λ holder. holder == k) sessions.now)
        result }
{
    let mut oldest = None;
    for session in sessions {
        if *session != asker {
            oldest = older_of(oldest, Some(*session));
        }
    }
    oldest
}
