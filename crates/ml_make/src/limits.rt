//! What a made run may have.
ghost use Rattle.std.specs.Prelude.{◌≡◌};
ghost use Rattle.ml_make.specs.Limits.{made_scripts, max_made_facts};

/// The most facts of made rules.
pub const MAX_MADE_FACTS: u32 = 20000;

/// How many scripts a made run has.
pub const MADE_SCRIPTS: u32 = 10;

/// The code's limits are those of the definitions. The function does nothing: its contract says so.
pub fn limits_of_made_runs()
    ensures facts { MAX_MADE_FACTS ≡ max_made_facts }
    ensures scripts { MADE_SCRIPTS ≡ made_scripts }
{}
