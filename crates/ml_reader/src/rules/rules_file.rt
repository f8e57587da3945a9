//! Reads rules.
ghost use Rattle.std.specs.Prelude.{◌≡◌, ◌⊎◌, ℕ, ◌<◌, ◌^◌, Err, IfOk, MatchResult, List, length};
ghost use Rattle.ml_reader.specs.Rules.{IsRules, RulesHaveFault};
ghost use Rattle.ml_reader.specs.declared.fault.ReadFault.{ReadFault};
ghost use Rattle.ml_reader.specs.declared.fault.ReadStop.TheVariants as read_stop;
ghost use Rattle.ml_search.specs.ItemsSeen.{items_seen};
ghost use Rattle.ml_search.specs.Program.{Program};
ghost use Rattle.ml_search.specs.ProgramSeen.{program_seen};
ghost use Rattle.ml_term.specs.Tree.{Tree};

use crate::clauses::read_clauses;
use crate::fault::ReadStop;
use crate::rules::Rules;
use crate::rules::rules_of::rules_of;
use ml_token::token_laws::tokens_stand_in_their_text;
use std::alloc::Global;

/// The program and the initial items of a rules file, whose bytes are fewer than 4294967296. A text
/// is rules of one program with one list of items, and exactly where it is none it has a first
/// fault: `Fault` with the fault's kind and place. Want of memory may come in place of every
/// answer.
pub fn read_rules(alloc: Global, bytes: &[u8]) -> Result<Rules, ReadStop>
    requires { length bytes.now < 2 ^ 32 }
    ensures read { IfOk result (λ r.
        IsRules bytes.now (program_seen r.program) (items_seen r.items)) }
    ensures fault { (f : ReadFault) → result ≡ Err (read_stop.Fault f)
        → RulesHaveFault bytes.now f }
    ensures complete { (p : Program) (items : List (ℕ × Tree)) → IsRules bytes.now p items
        → MatchResult result (λ r. (program_seen r.program ≡ p) × (items_seen r.items ≡ items))
        (λ stop. stop ≡ read_stop.OutOfMemory) }
    ensures first { (f : ReadFault) → RulesHaveFault bytes.now f
        → (result ≡ Err (read_stop.Fault f)) ⊎ (result ≡ Err read_stop.OutOfMemory) }
{
    tokens_stand_in_their_text();
    let reads = read_clauses(alloc, bytes)?;
    rules_of(alloc, reads)
}
