//! One step.
ghost use Rattle.std.specs.Prelude.{IfOk};
ghost use Rattle.ml_program.specs.LoadedProgram.{procedures_of, program_of};
ghost use Rattle.ml_machine.specs.Positions.{StandsForSome};
ghost use Rattle.ml_machine.specs.Steps.{StepsTo};

use crate::machine::Machine;
use crate::position::{Position, Then};
use ml_program::Loaded;
use std::alloc::AllocError;

impl Machine {
    /// One step from a position. Wherever the machine stands for a move of the search that asks,
    /// some turns of that search lead to a move for which it stands at the position that is given,
    /// or to an answer, or to the end. After a refusal, for want of memory, nothing is said of the
    /// machine.
    pub fn go_on(&mut self, program: &Loaded, position: Position) -> Result<Then, AllocError>
        requires { StandsForSome (procedures_of program.now) self.old position }
        ensures { IfOk result (λ then. StepsTo (program_of program.now) (procedures_of program.now)
            self.old position self.new then) }
    {
        match position {
            Position::Runs(at) => self.run(program, at),
            Position::Goes(link) => self.follow(link),
            Position::Calls(cell, next) => self.call_cell(cell, next),
            Position::Throws(ball, link) => self.throw(ball, link),
            Position::Fails => self.fail(program),
        }
    }
}
