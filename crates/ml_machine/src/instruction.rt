//! The instruction at a place.
ghost use Rattle.std.specs.Prelude.{◌≡◌, ◌+◌, List, Some};
ghost use Rattle.ml_compile.specs.declared.instr.Instr.{Instr};
ghost use Rattle.ml_machine.specs.Instructions.{EndsIn, HasCode, IsReadAt, IsReadIn};
ghost use Rattle.ml_program.specs.LoadedProgram.{procedures_of};
ghost use Rattle.ml_stack.specs.Memories.{CompiledProcedure, code_of};

use ml_compile::Instr;
use ml_program::Loaded;
use ml_stack::{At, Memory};

/// An instruction, as a step needs it: a control construct by its offsets, with whether its block
/// ends behind it, or a goal, whose instructions its call reads.
#[derive(Clone, Copy)]
pub enum Instruction {
    Proceed,
    True,
    Fail,
    Cut,
    Try(usize, usize, bool),
    Choose(usize, usize, usize, bool),
    Goal,
}

/// The instruction at a place. It takes no memory.
pub(crate) fn instruction_at(program: &Loaded, memory: &Memory, at: At) -> Instruction
    requires { HasCode (procedures_of program.now) memory.now at }
    ensures { IsReadAt (procedures_of program.now) memory.now at result }
{
    let instrs = program.code_of(memory.codes.as_slice(), at.code);
    instruction_in(instrs, at.place)
}

// The instruction at a place of some code.
fn instruction_in(instrs: &[Instr], place: usize) -> Instruction
    ensures { IsReadIn instrs.now place result }
{
    match instrs.get(place) {
        Some(Instr::Proceed) => Instruction::Proceed,
        Some(Instr::True) => Instruction::True,
        Some(Instr::Fail) => Instruction::Fail,
        Some(Instr::Cut) => Instruction::Cut,
        Some(Instr::Try(second, end)) => {
            Instruction::Try(*second, *end, ends_behind(instrs, place, *end))
        }
        Some(Instr::Choose(second, third, end)) => {
            Instruction::Choose(*second, *third, *end, ends_behind(instrs, place, *end))
        }
        _ => Instruction::Goal,
    }
}

/// Whether a block ends so many places behind a place. It takes no memory.
pub(crate) fn ends_behind(instrs: &[Instr], place: usize, by: usize) -> bool
    ensures { EndsIn instrs.now (place + by) result }
{
    match place.checked_add(by) {
        Some(end) => matches!(instrs.get(end), Some(Instr::Proceed)),
        None => false,
    }
}
