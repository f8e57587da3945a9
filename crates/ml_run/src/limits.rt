//! What a run may take.
ghost use Rattle.std.specs.Prelude.{◌≡◌};
ghost use Rattle.ml_run.specs.Limits.{max_scripts, max_text_bytes};

/// The most bytes of a rules file and of a script.
pub const MAX_TEXT_BYTES: usize = 1048576;

/// The most scripts of a run.
pub const MAX_SCRIPTS: usize = 64;

/// The code's limits are those of the definitions. The function does nothing: its contract says so.
pub fn limits_of_runs()
    ensures text_bytes { MAX_TEXT_BYTES ≡ max_text_bytes }
    ensures scripts { MAX_SCRIPTS ≡ max_scripts }
{}
