//! What is run.
ghost use Rattle.std.specs.Prelude.{◌≤◌, length};
ghost use Rattle.ml_run.specs.Limits.{max_scripts};

use ml_reader::Rules;
use ml_search::Script;

/// Rules and scripts.
#[derive(Drop)]
pub struct Inputs {
    pub rules: Rules,
    pub scripts: Vec<Script>,
    pub ghost few: { length scripts.items ≤ max_scripts },
}
