//! The text of numbers.
ghost use Rattle.std.specs.Prelude.{◌≡◌, ◌++◌, OnOk};
ghost use Rattle.std.specs.Fmt.{decimal, signed_decimal};

use crate::draft::Draft;
use std::alloc::AllocError;

/// Puts a number in decimal behind a text.
#[tactic(auto, using(std::proofs::lemmas::Fmt::decimal_step, std::proofs::lemmas::Fmt::decimal_digit))]
pub(crate) fn put_number(n: u64, out: &mut Draft) -> Result<(), AllocError>
    ensures kept { out.new.before ≡ out.old.before }
    ensures text { OnOk result (out.new.text ≡ out.old.text ++ decimal n) }
{
    if n < 10 {
        return out.put(&[b'0' + n as u8]);
    }
    put_number(n / 10, out)?;
    out.put(&[b'0' + (n % 10) as u8])
}

/// Puts an integer in decimal behind a text, with a minus where it is negative.
pub(crate) fn put_integer(v: i64, out: &mut Draft) -> Result<(), AllocError>
    ensures kept { out.new.before ≡ out.old.before }
    ensures text { OnOk result (out.new.text ≡ out.old.text ++ signed_decimal v) }
{
    if v < 0 {
        out.put(b"-")?;
    }
    put_number(v.unsigned_abs(), out)
}
