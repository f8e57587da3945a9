//! Results in range, and divisions.
ghost use Rattle.std.specs.Prelude.{◌≡◌, ◌≢◌, ◌^◌, ◌≤◌, int_div, int_rem, pos, unsigned_abs};
ghost use Rattle.ml_search.specs.Evaluate.{divide, in_range, modulo};
ghost use Rattle.ml_arith.specs.Faults.{result_value};
ghost use Rattle.ml_arith.specs.inside.Operators.{is_truncated_up};

use crate::fault::EvalFault;
use ml_term::INTEGER_OFFSET;

// The least integer that is out of range above.
const OFFSET: i128 = INTEGER_OFFSET as i128;

// A result, if it is in range.
pub(crate) fn in_range(wide: i128) -> Result<i64, EvalFault>
    ensures { result_value result ≡ in_range wide }
{
    if -OFFSET <= wide && wide < OFFSET {
        Ok(wide as i64)
    } else {
        Err(EvalFault::Overflow)
    }
}

// The quotient truncated toward zero.
pub(crate) fn quotient(x: i128, y: i128) -> Result<i64, EvalFault>
    requires x { unsigned_abs x ≤ 2 ^ 63 }
    requires y { unsigned_abs y ≤ 2 ^ 63 }
    ensures { result_value result ≡ divide int_div x y }
{
    if y == 0 {
        return Err(EvalFault::ZeroDivisor);
    }
    in_range(x / y)
}

// What is left of the quotient truncated toward zero; it has the sign of the dividend.
pub(crate) fn remainder(x: i128, y: i128) -> Result<i64, EvalFault>
    requires x { unsigned_abs x ≤ 2 ^ 63 }
    requires y { unsigned_abs y ≤ 2 ^ 63 }
    ensures { result_value result ≡ divide int_rem x y }
{
    if y == 0 {
        return Err(EvalFault::ZeroDivisor);
    }
    in_range(x % y)
}

// What is left of the floor of the exact quotient; it has the sign of the divisor.
pub(crate) fn modulo(x: i128, y: i128) -> Result<i64, EvalFault>
    requires x { unsigned_abs x ≤ 2 ^ 63 }
    requires y { unsigned_abs y ≤ 2 ^ 63 }
    ensures { result_value result ≡ divide modulo x y }
{
    if y == 0 {
        return Err(EvalFault::ZeroDivisor);
    }
    in_range(floor_rest(x, y))
}

// What is left of the floor of the exact quotient, where the divisor isn't zero.
fn floor_rest(x: i128, y: i128) -> i128
    requires x { unsigned_abs x ≤ 2 ^ 63 }
    requires y { unsigned_abs y ≤ 2 ^ 63 }
    requires divisor { y ≢ pos 0 }
    ensures { result ≡ modulo x y }
{
    let rest = x % y;
    if is_truncated_up(rest, y) {
        rest + y
    } else {
        rest
    }
}

// Whether a quotient truncated toward zero is above the exact one, by what is left of it.
fn is_truncated_up(rest: i128, divisor: i128) -> bool
    ensures { result ≡ is_truncated_up rest divisor }
{
    if divisor < 0 { 0 < rest } else { rest < 0 }
}
