//! Goals: their arguments are built, and their predicates are called.
ghost use Rattle.std.specs.Prelude.{◌≡◌, ◌+◌, ℕ, IfOk, IsTrue, List, Some};
ghost use Rattle.ml_asking.specs.Asking.{Move};
ghost use Rattle.ml_compile.specs.Spells.{StandsAt};
ghost use Rattle.ml_compile.specs.declared.instr.Instr.{Instr};
ghost use Rattle.ml_compile.specs.declared.instr.Instr.TheVariants as instr;
ghost use Rattle.ml_machine.specs.Calls.{CallsTo, HasBuiltCall, IsSomeCall};
ghost use Rattle.ml_machine.specs.Instructions.{EndsIn, HasInstruction, IsReadAt};
ghost use Rattle.ml_machine.specs.Positions.{IsAt, StandsForSome};
ghost use Rattle.ml_machine.specs.Steps.{StepsTo};
ghost use Rattle.ml_machine.specs.declared.instruction.Instruction.TheVariants as instruction;
ghost use Rattle.ml_program.specs.Links.{link_of};
ghost use Rattle.ml_program.specs.declared.link.Link.TheVariants as link;
ghost use Rattle.ml_search.specs.Errors.{existence_error};
ghost use Rattle.ml_term.specs.Seen.{seen};
ghost use Rattle.ml_term.specs.Valid.{is_valid};
ghost use Rattle.ml_program.specs.LoadedProgram.{procedures_of, program_of};
ghost use Rattle.ml_stack.specs.Memories.{Contents, code_of};
ghost use Rattle.ml_term.specs.Tree.{Tree};
ghost use Rattle.ml_term.specs.declared.declaration.Pred.{Pred};

use crate::instruction::ends_behind;
use crate::link::link_behind;
use crate::machine::Machine;
use crate::position::{Position, Then};
use ml_compile::Instr;
use ml_match::build;
use ml_program::{Link, Loaded};
use ml_raise::existence_error;
use ml_stack::{At, CodeName, FrameLink};
use ml_term::Term;
use std::alloc::{AllocError, Global};

/// A call whose arguments were built: its place, where it leads, and whether its block ends behind
/// it.
#[derive(Clone, Copy)]
pub struct CallSite {
    pub(crate) place: usize,
    pub(crate) link: Link,
    pub(crate) ends: bool,
}

impl Machine {
    /// At the instructions of a goal: builds its arguments, and goes where its predicate leads.
    pub(crate) fn call_goal(&mut self, program: &Loaded, at: At) -> Result<Then, AllocError>
        requires stands { StandsForSome (procedures_of program.now) self.old (Position.Runs at) }
        requires goal { IsReadAt (procedures_of program.now) self.old.memory at instruction.Goal }
        ensures { IfOk result (λ then. StepsTo (program_of program.now) (procedures_of program.now)
            self.old (Position.Runs at) self.new then) }
    {
        let site = self.build_goal(program, at)?;
        let call = At {
            code: at.code,
            place: site.place,
            env: at.env,
            height: at.height,
            next: at.next,
        };
        let next = link_behind(&mut self.memory, call, 1, site.ends)?;
        self.call_linked(program, call, site.link, next)
    }

    // Calls a predicate that there isn't, by the instruction of its call: it uses no inference.
    fn call_unknown(
        &mut self,
        program: &Loaded,
        call: At,
        next: FrameLink,
    ) -> Result<Then, AllocError>
        requires { (g : Pred) × HasInstruction (procedures_of program.now) self.old.memory call
            (instr.Call g) }
        ensures { IfOk result (λ then. (g : Pred) → HasInstruction (procedures_of program.now)
            self.old.memory call (instr.Call g) →
            link_of (program_of program.now) (procedures_of program.now) g.name g.arity
            ≡ link.Unknown →
            CallsTo (program_of program.now) (procedures_of program.now) self.old g.name g.arity
            next self.new then) }
    {
        let instrs = program.code_of(self.memory.codes.as_slice(), call.code);
        let error = unknown_error(self.alloc, instrs, call.place)?;
        self.raise(error, next)
    }

    // Builds the arguments of the goal whose instructions begin at a place: they are in the cells.
    fn build_goal(&mut self, program: &Loaded, at: At) -> Result<CallSite, AllocError>
        requires stands { StandsForSome (procedures_of program.now) self.old (Position.Runs at) }
        requires goal { IsReadAt (procedures_of program.now) self.old.memory at instruction.Goal }
        ensures { IfOk result (λ site. (written : List (List Tree)) (v : Move) →
            IsAt (procedures_of program.now) self.old written (Position.Runs at) v →
            HasBuiltCall (program_of program.now) (procedures_of program.now) self.new written at
            site v) }
    {
        self.cells.truncate(0);
        let instrs = program.code_of(self.memory.codes.as_slice(), at.code);
        let place = build(
            &mut self.memory.heap,
            self.memory.slots.as_slice(),
            at.env,
            instrs,
            at.place,
            &mut self.cells,
        )?;
        Ok(site_at(program, instrs, at.code, place))
    }

    // Calls the predicate of a link with the terms of the cells, by the instruction of its call.
    fn call_linked(
        &mut self,
        program: &Loaded,
        call: At,
        link: Link,
        next: FrameLink,
    ) -> Result<Then, AllocError>
        requires { (g : Pred) × HasInstruction (procedures_of program.now) self.old.memory call
            (instr.Call g) × (link ≡ link_of (program_of program.now) (procedures_of program.now)
            g.name g.arity) × IsSomeCall (program_of program.now) (procedures_of program.now)
            self.old g.name g.arity next }
        ensures { IfOk result (λ then. (g : Pred) → HasInstruction (procedures_of program.now)
            self.old.memory call (instr.Call g) →
            link ≡ link_of (program_of program.now) (procedures_of program.now) g.name g.arity →
            CallsTo (program_of program.now) (procedures_of program.now) self.old g.name g.arity
            next self.new then) }
    {
        match link {
            Link::Procedure(procedure) => self.call_procedure(program, procedure, next),
            Link::Control(construct) => self.call_control(construct, next),
            Link::Plain(plain) => self.call_plain(plain, next),
            Link::Store(built_in) => self.call_store(program, built_in, next),
            Link::Declared(kind, list) => self.call_declared(program, call, kind, list, next),
            Link::Unknown => self.call_unknown(program, call, next),
        }
    }
}

// The error that there is no such predicate as the one of the call at a place of some code.
fn unknown_error(alloc: Global, instrs: &[Instr], place: usize) -> Result<Term, AllocError>
    requires { (g : Pred) × StandsAt instrs.now place (instr.Call g) }
    ensures same { IfOk result (λ term. (g : Pred) → StandsAt instrs.now place (instr.Call g) →
        seen term ≡ existence_error g.name g.arity) }
    ensures valid { IfOk result (λ term. IsTrue (is_valid (seen term))) }
{
    match &instrs[place] {
        Instr::Call(pred) => Ok(existence_error(alloc, &pred.name, pred.arity)?),
        _ => unreachable!(),
    }
}

// The call that stands at a place of some code.
fn site_at(program: &Loaded, instrs: &[Instr], code: CodeName, place: usize) -> CallSite
    requires { (g : Pred) × StandsAt instrs.now place (instr.Call g) }
    ensures place { result.place ≡ place }
    ensures ends { EndsIn instrs.now (place + 1) result.ends }
    ensures link { (M : Contents) (g : Pred) →
        code_of (procedures_of program.now) M code ≡ Some instrs.now →
        StandsAt instrs.now place (instr.Call g) →
        result.link ≡ link_of (program_of program.now) (procedures_of program.now) g.name g.arity }
{
    match &instrs[place] {
        Instr::Call(pred) => CallSite {
            place,
            link: program.link_at(code, place, pred),
            ends: ends_behind(instrs, place, 1),
        },
        _ => unreachable!(),
    }
}
