//! The compiler: clauses and bodies as flat lists of instructions, and what such lists spell.
//! It stands on ml_term and ml_search. The layers above run the instructions, and prove their runs
//! by `SpellsClause` and `IsBlock` of `specs/`, which know no compiler: what a clause's code spells
//! is that clause, and a body's code is a block of that body. What carries it: offsets lead forward
//! from their own instruction, and a block ends by `Proceed`, so code that is appended to keeps its
//! meaning.
#![tactic(auto)]

mod arguments;
mod body;
mod code;
mod compile;
mod count;
mod head;
mod instr;
mod parts;
pub mod worked_rows;

pub use code::Code;
pub use compile::{compile_body, compile_clause};
pub use instr::Instr;
