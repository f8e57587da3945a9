//! The numbers that digits spell.
ghost use Rattle.std.specs.Prelude.{◌≡◌, ◌≤◌, ◌<◌, IfSome, IfNone};
ghost use Rattle.ml_token.specs.Number.{value_of};
ghost use Rattle.ml_token.specs.Limits.{max_number};

use crate::limits::MAX_NUMBER;

const TEN: u128 = 10;

/// The number that digits spell, where a token may have it.
pub fn small_number(digits: &[u8]) -> Option<u64>
    ensures some { IfSome result (λ n. (n ≡ value_of digits.now) × (n ≤ max_number)) }
    ensures none { IfNone result (max_number < value_of digits.now) }
{
    let mut n = 0u64;
    let mut rest = digits;
    while let [d, after @ ..] = rest {
        let next = u128::from(n) * TEN + u128::from(d.saturating_sub(b'0'));
        if next > u128::from(MAX_NUMBER) {
            return None;
        }
        n = next as u64;
        rest = after;
    }
    Some(n)
}
