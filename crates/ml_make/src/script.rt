//! The scripts of a made run.
ghost use Rattle.std.specs.Prelude.{◌≡◌, ◌≤◌, IfOk};
ghost use Rattle.std.specs.String.{string_bytes};
ghost use Rattle.ml_make.specs.Limits.{made_scripts};
ghost use Rattle.ml_make.specs.Texts.{goal_text, script_text, script_with};

use ml_term::decimal_laws::std_writes_decimal_texts;
use std::alloc::{AllocError, Global};

/// The text of a script, by its number from 1 to 10. It is the same each time.
pub fn make_script(alloc: Global, number: u32) -> Result<Vec<u8>, AllocError>
    requires some { 1 ≤ number }
    requires few { number ≤ made_scripts }
    ensures { IfOk result (λ text. text.items ≡ script_text number) }
{
    let goal = goal_text(alloc, number - 1)?;
    let text = script_with(alloc, goal.as_str())?;
    Ok(text.into_bytes())
}

// `m(Q,B)`, for this Q.
fn goal_text(alloc: Global, first: u32) -> Result<String, AllocError>
    ensures { IfOk result (λ text. string_bytes text ≡ goal_text first) }
{
    std_writes_decimal_texts();
    format!(in alloc; "m({first},B)")
}

// The script that asks for a goal's facts, deletes each third of them, and asks again.
fn script_with(alloc: Global, goal: &str) -> Result<String, AllocError>
    ensures { IfOk result (λ text. string_bytes text ≡ script_with goal.now) }
{
    format!(in alloc;
        ":- budget(200000).\n\
        ?- {goal}.\n\
        ?- {goal}, 0 =:= B mod 3, delete_tuple({goal}).\n\
        ?- {goal}.\n"
    )
}
