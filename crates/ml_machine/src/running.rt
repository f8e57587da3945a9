//! A step in a block.
ghost use Rattle.std.specs.Prelude.{IfOk};
ghost use Rattle.ml_program.specs.LoadedProgram.{procedures_of, program_of};
ghost use Rattle.ml_machine.specs.Positions.{StandsForSome};
ghost use Rattle.ml_machine.specs.Steps.{StepsTo};

use crate::instruction::{Instruction, instruction_at};
use crate::machine::Machine;
use crate::position::{Position, Then};
use ml_program::Loaded;
use ml_stack::At;
use std::alloc::AllocError;

impl Machine {
    /// At an instruction.
    pub(crate) fn run(&mut self, program: &Loaded, at: At) -> Result<Then, AllocError>
        requires { StandsForSome (procedures_of program.now) self.old (Position.Runs at) }
        ensures { IfOk result (λ then. StepsTo (program_of program.now) (procedures_of program.now)
            self.old (Position.Runs at) self.new then) }
    {
        match instruction_at(program, &self.memory, at) {
            Instruction::Proceed => Ok(self.run_proceed(at)),
            Instruction::True => self.run_true(at),
            Instruction::Fail => Ok(self.run_fail(at)),
            Instruction::Cut => self.run_cut(at),
            Instruction::Try(second, end, ends) => self.run_try(at, second, end, ends),
            Instruction::Choose(second, third, end, ends) => {
                self.run_choose(at, second, third, end, ends)
            }
            Instruction::Goal => self.call_goal(program, at),
        }
    }
}
