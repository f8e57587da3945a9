//! The generator of facts.
ghost use Rattle.std.specs.Prelude.{◌≡◌, ◌<◌, ◌^◌};
ghost use Rattle.ml_make.specs.Facts.{first_argument, number_behind};

/// The generator's number behind another one.
pub(crate) fn number_behind(x: u32) -> u32
    ensures { result ≡ number_behind x }
{
    ((1664525 * u64::from(x) + 1013904223) % 4294967296) as u32
}

/// The first argument that a number of the generator gives, 0 to 9.
pub(crate) fn first_argument(x: u32) -> u32
    ensures { result ≡ first_argument x }
{
    x / 65536 % 10
}
