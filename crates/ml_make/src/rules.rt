//! The rules of a made run.
ghost use Rattle.std.specs.Prelude.{◌≡◌, ◌≤◌, ◌++◌, IfOk};
ghost use Rattle.std.specs.String.{string_bytes};
ghost use Rattle.ml_make.specs.Limits.{max_made_facts};
ghost use Rattle.ml_make.specs.Texts.{fact_line, rules_text};

use crate::generator::{first_argument, number_behind};
use ml_term::decimal_laws::std_writes_decimal_texts;
use std::alloc::{AllocError, Global};

/// The text of the rules with this number of facts, 1 to 20,000. It is the same each time.
pub fn make_rules(alloc: Global, facts: u32) -> Result<Vec<u8>, AllocError>
    requires some { 1 ≤ facts }
    requires few { facts ≤ max_made_facts }
    ensures { IfOk result (λ text. text.items ≡ rules_text facts) }
{
    let mut text = Vec::from_slice(alloc, b":- relation(m/2).\n")?;
    let mut number = 0;
    for i in 0..facts {
        number = number_behind(number);
        put_fact(alloc, first_argument(number), i + 1, &mut text)?;
    }
    Ok(text)
}

// Puts the line of a fact behind a text.
fn put_fact(alloc: Global, first: u32, second: u32, text: &mut Vec<u8>) -> Result<(), AllocError>
    ensures { IfOk result
        (λ done. text.new.items ≡ text.old.items ++ fact_line (first, second)) }
{
    std_writes_decimal_texts();
    let line = format!(in alloc; "m({first},{second}).\n")?;
    text.extend_from_slice(line.as_bytes())
}
