//! The prefixes that a pattern needs.
ghost use Rattle.std.specs.Prelude.{◌≡◌, IfOk, IsTrue, map};
ghost use Rattle.std.specs.List.{filter};
ghost use Rattle.ml_bits.specs.BitList.{BitList};
ghost use Rattle.ml_region.specs.Regions.{region_prefixes};
ghost use Rattle.ml_search.specs.Program.{is_of};
ghost use Rattle.ml_term.specs.Patterns.{may_hold, pattern_of};
ghost use Rattle.ml_term.specs.Seen.{seen};
ghost use Rattle.ml_term.specs.Valid.{is_valid};

use ml_bits::{Bits, OutOfMemory};
use ml_file::BangFile;
use ml_key::pattern_of;
use ml_term::Term;

/// The prefixes of the regions that may hold an item which a pattern meets, in their order: just
/// those that may begin a key which fits the pattern. The pattern is of the declared predicate.
pub fn needed(file: &BangFile, head: &Term) -> Result<Vec<Bits>, OutOfMemory>
    requires declared { IsTrue (is_of file.now.decl.pred.name file.now.decl.pred.arity
        (seen head.now)) }
    requires valid { IsTrue (is_valid (seen head.now)) }
    ensures { IfOk result (λ found. map (λ (b : BitList). b.bits) found.items
        ≡ filter (λ prefix. may_hold (pattern_of file.now.decl.keys (seen head.now)) prefix)
        (region_prefixes file.now.regions)) }
{
    file.regions().compatible(&pattern_of(file.decl(), head))
}
