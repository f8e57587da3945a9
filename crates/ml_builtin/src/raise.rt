//! The terms that faults of evaluations raise.
ghost use Rattle.std.specs.Prelude.{◌≡◌, IfOk, IsTrue};
ghost use Rattle.ml_arith.specs.Faults.{fault_term};
ghost use Rattle.ml_search.specs.Errors.{kept_small};
ghost use Rattle.ml_term.specs.Seen.{seen};
ghost use Rattle.ml_term.specs.Valid.{is_valid};

use ml_arith::EvalFault;
use ml_raise::{Arithmetic, evaluable_error, evaluation_error, instantiation_error};
use ml_term::Term;
use std::alloc::{AllocError, Global};

// The term that a fault raises; each is small.
pub(crate) fn raise_fault(alloc: Global, fault: EvalFault) -> Result<Term, AllocError>
    ensures same { IfOk result (λ term. seen term ≡ kept_small (fault_term fault)) }
    ensures valid { IfOk result (λ term. IsTrue (is_valid (seen term))) }
{
    match fault {
        EvalFault::Unbound => Ok(instantiation_error(alloc)?),
        EvalFault::NotEvaluable(name, arity) => Ok(evaluable_error(alloc, &name, arity)?),
        EvalFault::Overflow => Ok(evaluation_error(alloc, Arithmetic::IntOverflow)?),
        EvalFault::ZeroDivisor => Ok(evaluation_error(alloc, Arithmetic::ZeroDivisor)?),
    }
}
