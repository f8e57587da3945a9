//! Code.
ghost use Rattle.std.specs.Prelude.{◌≡◌};

use crate::instr::Instr;
use std::marker::Model;

/// The instructions of a clause or of a body. Contracts see their list.
#[derive(Drop)]
pub struct Code {
    instrs: Vec<Instr>,
}

impl Model for Code {
    ghost use Rattle.std.specs.Prelude.{List};
    ghost use Rattle.ml_compile.specs.declared.instr.Instr.{Instr};

    ghost Value = { List Instr };

    ghost view = { λ c. c.instrs.items };
}

impl Code {
    /// The code of these instructions. It takes no memory.
    pub(crate) fn from_vec(instrs: Vec<Instr>) -> Code
        ensures { result ≡ instrs.items }
    {
        Code { instrs }
    }

    /// The instructions as a slice. It takes no memory.
    pub fn as_slice(&self) -> &[Instr]
        ensures { result.now ≡ self.now }
    {
        self.instrs.as_slice()
    }
}
