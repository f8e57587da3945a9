//! The operators of two arguments.
ghost use Rattle.std.specs.Prelude.{◌≡◌, MatchOption, None, Some};
ghost use Rattle.ml_search.specs.Evaluate.{operations};
ghost use Rattle.ml_search.specs.Names.{look_up};
ghost use Rattle.ml_arith.specs.Faults.{result_value};
ghost use Rattle.ml_arith.specs.inside.Operators.{operation};

use crate::fault::EvalFault;
use crate::result::{in_range, modulo, quotient, remainder};
use ml_term::Name;

// An operator of two arguments.
#[derive(Clone, Copy)]
pub(crate) enum Operator {
    // `+`
    Add,
    // `-`
    Subtract,
    // `*`
    Multiply,
    // `//`
    Divide,
    // `rem`
    Remainder,
    // `mod`
    Modulo,
}

impl Operator {
    // The operator of a name.
    pub(crate) fn of(name: &Name) -> Option<Operator>
        ensures { MatchOption result (look_up operations name.now ≡ None)
            (λ operator. look_up operations name.now ≡ Some (operation operator)) }
    {
        let name = name.as_slice();
        if name == b"+".as_slice() {
            Some(Operator::Add)
        } else if name == b"-".as_slice() {
            Some(Operator::Subtract)
        } else if name == b"*".as_slice() {
            Some(Operator::Multiply)
        } else if name == b"//".as_slice() {
            Some(Operator::Divide)
        } else if name == b"rem".as_slice() {
            Some(Operator::Remainder)
        } else if name == b"mod".as_slice() {
            Some(Operator::Modulo)
        } else {
            None
        }
    }

    // What the operator makes of two integers.
    pub(crate) fn apply(self, x: i64, y: i64) -> Result<i64, EvalFault>
        ensures { result_value result ≡ operation self x y }
    {
        let (x, y) = (i128::from(x), i128::from(y));
        match self {
            Operator::Add => in_range(x + y),
            Operator::Subtract => in_range(x - y),
            Operator::Multiply => in_range(x * y),
            Operator::Divide => quotient(x, y),
            Operator::Remainder => remainder(x, y),
            Operator::Modulo => modulo(x, y),
        }
    }
}
