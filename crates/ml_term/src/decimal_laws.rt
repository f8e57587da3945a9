//! The decimal numbers that std writes are those of the definitions. The function does nothing: its
//! contract is the law.
ghost use Rattle.std.specs.Prelude.{◌≡◌, ◌^◌, ◌<◌, ℕ, ℤ, FitsSigned};
ghost use Rattle.std.specs.Int.{w64};
ghost use Rattle.std.specs.Fmt.{decimal, signed_decimal};
ghost use Rattle.ml_term.specs.Decimal.{decimal_text, integer_text};

/// What `{}` writes of a number of 64 bits.
/// `unsigned`: the decimal text of a `u64`. `signed`: the text of an `i64`, with a minus where it
/// is negative.
pub fn std_writes_decimal_texts()
    ensures unsigned { (n : ℕ) → n < 2 ^ 64 → decimal n ≡ decimal_text n }
    ensures signed { (z : ℤ) → FitsSigned w64 z → signed_decimal z ≡ integer_text z }
{}
