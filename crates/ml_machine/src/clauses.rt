//! Procedures of the program: clauses that are tried one after another.
ghost use Rattle.std.specs.Prelude.{◌≡◌, ℕ, IfOk, List};
ghost use Rattle.ml_machine.specs.Calls.{CallsTo, IsSomeCall};
ghost use Rattle.ml_machine.specs.Clauses.{EntersTo, IsEnteringSome, IsTryingSome, TriesFrom};
ghost use Rattle.ml_machine.specs.Taken.{HasTakenSome, TriesTo};
ghost use Rattle.ml_program.specs.Links.{link_of};
ghost use Rattle.ml_program.specs.LoadedProgram.{procedures_of, program_of};
ghost use Rattle.ml_program.specs.declared.link.Link.TheVariants as link;

use crate::arguments::{load_cells, save_cells};
use crate::machine::Machine;
use crate::position::{Ended, Position, Then};
use ml_match::enter;
use ml_program::Loaded;
use ml_stack::{At, CodeName, FrameLink, Left, push_choice};
use std::alloc::AllocError;

impl Machine {
    /// Calls a procedure of the program with the terms of the cells: an inference is used, the
    /// first clause is entered, and the others are a choice.
    pub(crate) fn call_procedure(
        &mut self,
        program: &Loaded,
        procedure: u32,
        next: FrameLink,
    ) -> Result<Then, AllocError>
        requires { (f : List ℕ) × (n : ℕ)
            × (link_of (program_of program.now) (procedures_of program.now) f n
            ≡ link.Procedure procedure)
            × IsSomeCall (program_of program.now) (procedures_of program.now) self.old f n next }
        ensures { IfOk result (λ then. (f : List ℕ) (n : ℕ) →
            link_of (program_of program.now) (procedures_of program.now) f n
            ≡ link.Procedure procedure →
            CallsTo (program_of program.now) (procedures_of program.now) self.old f n next self.new
            then) }
    {
        program.is_loaded();
        if self.left == 0 {
            return Ok(Then::Over(Ended::Exhausted));
        }
        self.left -= 1;
        if program.clause_count(procedure) == 1 {
            let height = self.stacks.choices.len();
            return self.enter_clause(program, procedure, 0, height, next);
        }
        let saved = save_cells(&mut self.memory.saved, self.cells.as_slice())?;
        self.try_clause(program, procedure, 0, saved, next)
    }

    /// Tries the clauses of a procedure from a clause on, which were left at a choice: the
    /// arguments of the call are saved from a place on, and it goes on at a link.
    pub(crate) fn try_clauses(
        &mut self,
        program: &Loaded,
        procedure: u32,
        clause: u32,
        saved: usize,
        next: FrameLink,
    ) -> Result<Then, AllocError>
        requires { HasTakenSome (procedures_of program.now) self.old
            (Left.Clauses procedure clause saved next) }
        ensures { IfOk result (λ then. TriesTo (program_of program.now) (procedures_of program.now)
            self.old (Left.Clauses procedure clause saved next) self.new then) }
    {
        if clause >= program.clause_count(procedure) {
            return Ok(Then::Goes(Position::Fails));
        }
        load_cells(
            self.memory.saved.as_slice(),
            saved,
            program.predicate(procedure).arity as usize,
            &mut self.cells,
        )?;
        self.try_clause(program, procedure, clause, saved, next)
    }

    // Enters a clause with the terms of the cells; those behind it, if there are any, are a choice.
    fn try_clause(
        &mut self,
        program: &Loaded,
        procedure: u32,
        clause: u32,
        saved: usize,
        next: FrameLink,
    ) -> Result<Then, AllocError>
        requires { IsTryingSome (program_of program.now) (procedures_of program.now) self.old
            procedure clause saved next }
        ensures { IfOk result (λ then. TriesFrom (program_of program.now)
            (procedures_of program.now) self.old procedure clause saved next self.new then) }
    {
        let height = self.stacks.choices.len();
        if program.clause_count(procedure) - clause > 1 {
            let left = Left::Clauses {
                procedure,
                clause: clause + 1,
                saved,
                next,
            };
            push_choice(&self.memory, &mut self.stacks.choices, left)?;
            return self.enter_clause(program, procedure, clause, height, next);
        }
        self.enter_clause(program, procedure, clause, height, next)
    }

    // Enters a clause with the terms of the cells: its body runs, or its head doesn't unify.
    fn enter_clause(
        &mut self,
        program: &Loaded,
        procedure: u32,
        clause: u32,
        height: usize,
        next: FrameLink,
    ) -> Result<Then, AllocError>
        requires { IsEnteringSome (program_of program.now) (procedures_of program.now) self.old
            procedure clause height next }
        ensures { IfOk result (λ then. EntersTo (program_of program.now)
            (procedures_of program.now) self.old procedure clause height next self.new then) }
    {
        program.is_loaded();
        let code = CodeName::OfClause(procedure, clause);
        let env = self.memory.slots.len();
        let instrs = program.code_of(self.memory.codes.as_slice(), code);
        let entered = enter(
            &mut self.memory.heap,
            &mut self.memory.slots,
            &mut self.todo,
            instrs,
            self.cells.as_slice(),
        )?;
        let Some(place) = entered else {
            return Ok(Then::Goes(Position::Fails));
        };
        Ok(Then::Goes(Position::Runs(At {
            code,
            place,
            env,
            height,
            next,
        })))
    }
}
