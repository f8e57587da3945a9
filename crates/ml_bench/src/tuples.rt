//! The tuples of a relation of two or three arguments.
ghost use Rattle.std.specs.Prelude.{◌≡◌, ◌≤◌, IfOk, IsTrue};
ghost use Rattle.ml_bench.specs.Tuples.{arity_of, term_of};
ghost use Rattle.ml_term.specs.Seen.{seen};
ghost use Rattle.ml_term.specs.Valid.{is_in_range};

use ml_term::{Args, Name, Term, is_in_range};
use std::alloc::{AllocError, Global};

/// How many tuples have one and the same first argument, and how many the same second one.
pub const TUPLES_A_VALUE: u32 = 10;

// How far apart the rows stand that one match and the next ask for.
const STEP: u32 = 7919;

/// How many arguments the tuples have.
#[derive(Clone, Copy, PartialEq, Eq)]
pub enum Width {
    /// Two arguments.
    Two,
    /// Three arguments.
    Three,
}

impl Width {
    /// The number of arguments.
    pub fn arity(self) -> u8
        ensures { result ≡ arity_of self }
    {
        match self {
            Width::Two => 2,
            Width::Three => 3,
        }
    }
}

/// Three arguments, of which a relation of two has no third.
#[derive(Clone, Copy)]
pub struct Row {
    pub first: i64,
    pub second: i64,
    pub third: i64,
    pub ghost first_in_range: { IsTrue (is_in_range first) },
    pub ghost second_in_range: { IsTrue (is_in_range second) },
    pub ghost third_in_range: { IsTrue (is_in_range third) },
}

// A number in a place of its own among all integers: different small numbers lie far apart.
fn spread(n: u32) -> i64
    ensures { IsTrue (is_in_range result) }
{
    let product = u64::from(n).wrapping_mul(11400714819323198485);
    let value = product.cast_signed() >> 2;
    if is_in_range(value) { value } else { 0 }
}

/// How many values the first argument of so many tuples has, and how many the second.
pub fn values_of(count: u32) -> u32
    ensures { 1 ≤ result }
{
    (count / TUPLES_A_VALUE).max(1)
}

/// The row with a number, where the second argument has so many values.
pub fn row_at(n: u32, values: u32) -> Row
    requires { 1 ≤ values }
{
    Row {
        first: spread(n / TUPLES_A_VALUE),
        second: spread(n % values),
        third: spread(n),
    }
}

/// The row whose arguments the match with a number gives, where the file has so many tuples.
pub fn asked_row(n: u32, count: u32) -> Row {
    row_at(n.wrapping_mul(STEP) % count.max(1), values_of(count))
}

/// The term with a name and these arguments.
pub fn term_of(
    alloc: Global,
    width: Width,
    name: &Name,
    first: Term,
    second: Term,
    third: Term,
) -> Result<Term, AllocError>
    ensures { IfOk result (λ t. seen t
        ≡ term_of width name.now (seen first) (seen second) (seen third)) }
{
    let args = match width {
        Width::Two => vec![in alloc; first, second]?,
        Width::Three => vec![in alloc; first, second, third]?,
    };
    Ok(Term::Cmp(name.copy_of(alloc)?, Args::new(args)))
}
