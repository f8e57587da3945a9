//! The table of operators.
ghost use Rattle.std.specs.Prelude.{◌≡◌, Some};
ghost use Rattle.std.specs.Option.{option_map};
ghost use Rattle.std.specs.Str.{bytes_eq};
ghost use Rattle.ml_reader.specs.Lexemes.{Lexeme};
ghost use Rattle.ml_reader.specs.Operators.{comparisons, is_among, infix_of, prefix_of};
ghost use Rattle.ml_reader.specs.Operators.{is_operator};
ghost use Rattle.ml_reader.specs.Seen.{operator_seen};

use ml_term::Name;

/// How strongly an operator binds: its priority, and the greatest priorities of its operands on the
/// left and right.
#[derive(Clone, Copy)]
pub struct OperatorPriorities {
    pub priority: u16,
    pub left: u16,
    pub right: u16,
}

/// The greatest priority of a term.
pub const MAX_PRIORITY: u16 = 1200;

/// The greatest priority of an argument of a compound and of an element of a list.
pub const MAX_ARGUMENT_PRIORITY: u16 = 999;

/// The comma as an infix operator.
pub const COMMA: OperatorPriorities = OperatorPriorities {
    priority: 1000,
    left: 999,
    right: 1000,
};

fn priorities_of(priority: u16, left: u16, right: u16) -> Option<OperatorPriorities>
    ensures { result ≡ Some (record { priority = priority; left = left; right = right }) }
{
    Some(OperatorPriorities {
        priority,
        left,
        right,
    })
}

/// Whether a name has these bytes.
pub fn is(name: &Name, bytes: &[u8]) -> bool
    ensures { result ≡ bytes_eq bytes.now name.now }
{
    bytes == name.as_slice()
}

// Whether a name is an operator that compares.
fn is_comparison(name: &Name) -> bool
    ensures { result ≡ is_among comparisons name.now }
{
    is(name, b"=")
        || is(name, b"\\=")
        || is(name, b"==")
        || is(name, b"\\==")
        || is(name, b"@<")
        || is(name, b"@=<")
        || is(name, b"@>")
        || is(name, b"@>=")
        || is(name, b"=..")
        || is(name, b"is")
        || is(name, b"=:=")
        || is(name, b"=\\=")
        || is(name, b"<")
        || is(name, b"=<")
        || is(name, b">")
        || is(name, b">=")
}

/// The infix operator of a name.
#[tactic(auto, unfolding(crate::specs::Operators::infix_of))]
pub fn infix_of(name: &Name) -> Option<OperatorPriorities>
    ensures { option_map (λ s. operator_seen name.now s) result ≡ infix_of name.now }
{
    if is(name, b":-") {
        priorities_of(1200, 1199, 1199)
    } else if is(name, b";") {
        priorities_of(1100, 1099, 1100)
    } else if is(name, b"->") {
        priorities_of(1050, 1049, 1050)
    } else if is(name, b",") {
        Some(COMMA)
    } else if is_comparison(name) {
        priorities_of(700, 699, 699)
    } else if is(name, b"+") || is(name, b"-") {
        priorities_of(500, 500, 499)
    } else if is(name, b"*")
        || is(name, b"/")
        || is(name, b"//")
        || is(name, b"rem")
        || is(name, b"mod")
    {
        priorities_of(400, 400, 399)
    } else {
        None
    }
}

/// The prefix operator of a name.
#[tactic(auto, unfolding(crate::specs::Operators::prefix_of))]
pub fn prefix_of(name: &Name) -> Option<OperatorPriorities>
    ensures { option_map (λ s. operator_seen name.now s) result ≡ prefix_of name.now }
{
    if is(name, b":-") || is(name, b"?-") {
        priorities_of(1200, 0, 1199)
    } else if is(name, b"\\+") {
        priorities_of(900, 0, 900)
    } else if is(name, b"-") {
        priorities_of(200, 0, 200)
    } else {
        None
    }
}

/// Whether a name is an operator.
pub fn is_operator(name: &Name) -> bool
    ensures { result ≡ is_operator name.now }
{
    infix_of(name).is_some() || prefix_of(name).is_some()
}
