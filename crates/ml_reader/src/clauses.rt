//! The clauses of a text.
ghost use Rattle.std.specs.Prelude.{◌≡◌, ◌<◌, ◌^◌, ◌⊎◌, Err, IfOk, List, MatchResult, Ok, length};
ghost use Rattle.std.specs.Prelude.{map};
ghost use Rattle.std.specs.List.{AllByRecursion};
ghost use Rattle.ml_reader.specs.Faults.{HasFirstFault};
ghost use Rattle.ml_reader.specs.Lexemes.{ReadClause};
ghost use Rattle.ml_reader.specs.Seen.{read_seen};
ghost use Rattle.ml_reader.specs.Texts.{IsRead, IsWellRead};
ghost use Rattle.ml_reader.specs.declared.fault.ReadFault.{ReadFault};
ghost use Rattle.ml_reader.specs.declared.fault.ReadStop.TheVariants as read_stop;

use crate::fault::ReadStop;
use crate::parser::context::TokenContext;
use crate::parser::frames::State;
use crate::parser::lexeme::Read;
use crate::parser::turn::{ReadStep, next_turn};
use ml_token::token_laws::tokens_stand_in_their_text;
use std::alloc::Global;

/// The clauses of a text, in its order. A text has at most one list of clauses, and exactly where
/// it has none it has a first fault: `Fault` with the fault's kind and place. Want of memory may
/// come in place of every answer.
///
/// It takes time in proportion to the text, save that a variable is looked for among the names of
/// its clause.
pub fn read_clauses(alloc: Global, bytes: &[u8]) -> Result<Vec<Read>, ReadStop>
    requires { length bytes.now < 2 ^ 32 }
    ensures read { IfOk result (λ clauses. IsRead bytes.now (map read_seen clauses.items)) }
    ensures fault { (f : ReadFault) → result ≡ Err (read_stop.Fault f) → HasFirstFault bytes.now f }
    ensures well_read { IfOk result
        (λ clauses. AllByRecursion IsWellRead (map read_seen clauses.items)) }
    ensures complete { (cs : List ReadClause) → IsRead bytes.now cs
        → MatchResult result (λ clauses. map read_seen clauses.items ≡ cs)
        (λ stop. stop ≡ read_stop.OutOfMemory) }
    ensures first { (f : ReadFault) → HasFirstFault bytes.now f
        → (result ≡ Err (read_stop.Fault f)) ⊎ (result ≡ Err read_stop.OutOfMemory) }
{
    tokens_stand_in_their_text();
    let mut clauses = Vec::new(alloc);
    let mut context = TokenContext::new(alloc);
    let mut state = State::ExpectTerm(Vec::new(alloc));
    loop {
        match next_turn(alloc, bytes, context, state)? {
            ReadStep::Go(behind, next) => {
                context = behind;
                state = next;
            }
            ReadStep::Clause(behind, read) => {
                clauses.push(read)?;
                context = behind;
                state = State::ExpectTerm(Vec::new(alloc));
            }
            ReadStep::Whole => return Ok(clauses),
            ReadStep::Wrong(fault) => return Err(ReadStop::Fault(fault)),
        }
    }
}
