//! What an error is about, as the terms name it.
ghost use Rattle.std.specs.Prelude.{◌≡◌, IsTrue};
ghost use Rattle.ml_raise.specs.Causes.{arithmetic_name, domain_name, type_name};
ghost use Rattle.ml_term.specs.Names.{is_name};

/// The type that a term should have had.
#[derive(Clone, Copy)]
pub enum TermType {
    /// An atom.
    Atom,
    /// An atom or an integer.
    Atomic,
    /// An atom or a compound.
    Callable,
    /// A compound.
    Compound,
    /// An integer.
    Integer,
    /// A list.
    List,
}

/// The domain in which a term should have been.
#[derive(Clone, Copy)]
pub enum Domain {
    /// Integers from 0.
    NotLessThanZero,
    /// Lists with an element.
    NonEmptyList,
}

/// Why an expression has no value.
#[derive(Clone, Copy)]
pub enum Arithmetic {
    /// A result is out of range.
    IntOverflow,
    /// A divisor is zero.
    ZeroDivisor,
}

impl TermType {
    // The name of the type.
    pub(crate) fn name(self) -> &'static [u8]
        ensures same { result.now ≡ type_name self }
        ensures valid { IsTrue (is_name result.now) }
    {
        match self {
            TermType::Atom => b"atom",
            TermType::Atomic => b"atomic",
            TermType::Callable => b"callable",
            TermType::Compound => b"compound",
            TermType::Integer => b"integer",
            TermType::List => b"list",
        }
    }
}

impl Domain {
    // The name of the domain.
    pub(crate) fn name(self) -> &'static [u8]
        ensures same { result.now ≡ domain_name self }
        ensures valid { IsTrue (is_name result.now) }
    {
        match self {
            Domain::NotLessThanZero => b"not_less_than_zero",
            Domain::NonEmptyList => b"non_empty_list",
        }
    }
}

impl Arithmetic {
    // The name of the cause.
    pub(crate) fn name(self) -> &'static [u8]
        ensures same { result.now ≡ arithmetic_name self }
        ensures valid { IsTrue (is_name result.now) }
    {
        match self {
            Arithmetic::IntOverflow => b"int_overflow",
            Arithmetic::ZeroDivisor => b"zero_divisor",
        }
    }
}
