//! The text of a read fault.
ghost use Rattle.std.specs.Prelude.{◌≡◌, IfOk};
ghost use Rattle.std.specs.String.{string_bytes};
ghost use Rattle.ml_run.specs.Faults.{kind_text, fault_text};

use ml_reader::{ReadFault, ReadKind};
use ml_term::decimal_laws::std_writes_decimal_texts;
use std::alloc::{AllocError, Global};

/// `KIND at PLACE`.
pub fn fault_text(alloc: Global, fault: &ReadFault) -> Result<String, AllocError>
    ensures { IfOk result (λ text. string_bytes text ≡ fault_text fault.now) }
{
    std_writes_decimal_texts();
    let kind = kind_text(fault.kind);
    let place = fault.place;
    format!(in alloc; "{kind} at {place}")
}

// The name of a kind of fault.
fn kind_text(kind: ReadKind) -> &'static str
    ensures { result.now ≡ kind_text kind }
{
    match kind {
        ReadKind::BadCharacter => "BadCharacter",
        ReadKind::OpenQuote => "OpenQuote",
        ReadKind::OpenComment => "OpenComment",
        ReadKind::BadEscape => "BadEscape",
        ReadKind::NumberTooLarge => "NumberTooLarge",
        ReadKind::NameTooLong => "NameTooLong",
        ReadKind::LeftOutQuote => "LeftOutQuote",
        ReadKind::TooDeep => "TooDeep",
        ReadKind::ArityTooLarge => "ArityTooLarge",
        ReadKind::ClauseTooLong => "ClauseTooLong",
        ReadKind::PriorityClash => "PriorityClash",
        ReadKind::Unexpected => "Unexpected",
        ReadKind::TooManyNodes => "TooManyNodes",
        ReadKind::BadDeclaration => "BadDeclaration",
        ReadKind::TwiceDeclared => "TwiceDeclared",
        ReadKind::BadClause => "BadClause",
        ReadKind::ItemTooLarge => "ItemTooLarge",
        ReadKind::BadScriptItem => "BadScriptItem",
    }
}
