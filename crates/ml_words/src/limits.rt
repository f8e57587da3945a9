//! What a command may take.
ghost use Rattle.std.specs.Prelude.{◌≡◌};
ghost use Rattle.ml_words.specs.Limits.{max_made_digits, max_made_facts, max_scripts};

/// The most scripts of a run.
pub const MAX_SCRIPTS: usize = 64;

/// The greatest number of `make`.
pub const MAX_MADE_FACTS: u32 = 20000;

/// The most digits of the number of `make`.
pub const MAX_MADE_DIGITS: usize = 5;

/// The code's limits are those of the definitions. The function does nothing: its contract says so.
pub fn limits_of_words()
    ensures scripts { MAX_SCRIPTS ≡ max_scripts }
    ensures facts { MAX_MADE_FACTS ≡ max_made_facts }
    ensures digits { MAX_MADE_DIGITS ≡ max_made_digits }
{}
