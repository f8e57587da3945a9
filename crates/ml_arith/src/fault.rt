//! Why an expression has no value.
ghost use Rattle.std.specs.Prelude.{◌≡◌};
ghost use Rattle.ml_arith.specs.declared.fault.EvalStop.TheVariants as eval_stop;

use ml_term::Name;
use std::alloc::AllocError;

/// Why an expression has no value. It holds no term: the layer above makes the raised one of it.
#[derive(Drop)]
pub enum EvalFault {
    /// A part is an unbound variable.
    Unbound,
    /// A part is no expression: its name, and its arity from 0 for an atom to 255.
    NotEvaluable(Name, u8),
    /// A result is below -2305843009213693952 or above 2305843009213693951.
    Overflow,
    /// A divisor is zero.
    ZeroDivisor,
}

/// Why an evaluation gave no integer.
#[derive(Drop)]
pub enum EvalStop {
    /// The expression has no value.
    Fault(EvalFault),
    /// Memory was refused.
    OutOfMemory,
}

impl From<EvalFault> for EvalStop {
    ghost from_gives = { λ fault stop. stop ≡ eval_stop.Fault fault };

    fn from(fault: EvalFault) -> Self {
        EvalStop::Fault(fault)
    }
}

impl From<AllocError> for EvalStop {
    ghost from_gives = { λ _ stop. stop ≡ eval_stop.OutOfMemory };

    fn from(_: AllocError) -> Self {
        EvalStop::OutOfMemory
    }
}
