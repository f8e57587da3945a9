//! Loaded programs.
ghost use Rattle.std.specs.Prelude.{◌≡◌, ℕ, IfOk, IfSome, length, List, map, MatchOption, None};
ghost use Rattle.std.specs.Prelude.{slice_get, Some};
ghost use Rattle.ml_compile.specs.Spells.{StandsAt};
ghost use Rattle.ml_compile.specs.declared.instr.Instr.{Instr};
ghost use Rattle.ml_compile.specs.declared.instr.Instr.TheVariants.{Call};
ghost use Rattle.ml_program.specs.DeclaredLists.{IsDeclaredAs};
ghost use Rattle.ml_program.specs.Links.{link_beside, link_of};
ghost use Rattle.ml_program.specs.LoadedProgram.{IsLoaded, procedures_of, program_of};
ghost use Rattle.ml_search.specs.Program.{declaration_of};
ghost use Rattle.ml_stack.specs.declared.frame.CodeName.TheVariants.{OfClause};
ghost use Rattle.ml_term.specs.declared.declaration.Pred.{Pred};
ghost use Rattle.ml_stack.specs.Memories.{code_of, CompiledProcedure, Contents};

use crate::link::Link;
use crate::links::Links;
use crate::procedure::{Filed, LinkedProcedure, file_clauses};
use crate::tables::Tables;
use ml_compile::{Code, Instr};
use ml_search::Program;
use ml_stack::CodeName;
use ml_term::{Kind, Pred};
use std::alloc::{AllocError, Global};
use std::marker::Model;
use std::snapshot::Snapshot;

/// A program as it is run: for each predicate with clauses a procedure, with the codes of its
/// clauses in order and the links beside them. With it contracts see the program that was loaded.
#[derive(Drop)]
pub struct Loaded {
    procedures: Vec<LinkedProcedure>,
    tables: Tables,
    program: Snapshot<Program>,
}

impl Model for Loaded {
    ghost use Rattle.std.specs.Coded.{codes};
    ghost use Rattle.ml_program.specs.LoadedProgram.{LoadedProgram};
    ghost use Rattle.ml_search.specs.contracts.program.Program as rules;
    ghost use Rattle.ml_program.specs.inside.Linking.{IsKept, loaded_seen};

    ghost Value = { LoadedProgram };

    ghost coded = { Prim.hlevel (codes, rules.the_row.coded) };

    ghost view = { λ l. loaded_seen l.program.value l.procedures.items };

    ghost invariant = { λ l. IsKept l.program.value l.procedures.items l.tables.decls
        l.tables.places.keys };
}

impl Loaded {
    /// Loads a program. Want of memory is the answer too where it has 2^32 predicates with clauses,
    /// or a predicate has 2^32 clauses.
    pub fn new(alloc: Global, program: &Program) -> Result<Loaded, AllocError>
        ensures { IfOk result (λ loaded. loaded.program ≡ program.now) }
    {
        let decls = program.decls.copy_of(alloc)?;
        let Filed { places, procedures } = file_clauses(alloc, program.clauses.as_slice())?;
        let tables = Tables { decls, places };
        let procedures = tables.link_all(alloc, procedures)?;
        Ok(Loaded {
            procedures,
            tables,
            program: Snapshot::of(program),
        })
    }

    /// What is loaded: each procedure has the clauses of its predicate in the program's order, and
    /// its codes spell them. It does nothing.
    pub fn is_loaded(&self)
        ensures { IsLoaded (program_of self.now) (procedures_of self.now) }
    {
        let _ = &self.procedures;
    }

    /// The program that was loaded, for contracts alone.
    pub fn program(&self) -> &Snapshot<Program>
        ensures { result.now.value ≡ self.now.program }
    {
        &self.program
    }

    /// The link of a predicate, in constant time. It takes no memory.
    pub fn link_of(&self, pred: &Pred) -> Link
        ensures { result ≡ link_of (program_of self.now) (procedures_of self.now) pred.now.name
            pred.now.arity }
    {
        self.tables.link_of(pred)
    }

    /// The kind of a declared predicate and the number of its list; nothing where it isn't
    /// declared. It tells so of control constructs and built-ins too, whose links hide it. In
    /// constant time, and it takes no memory.
    pub fn declared(&self, pred: &Pred) -> Option<(Kind, u32)>
        ensures { MatchOption result
            (declaration_of (program_of self.now).decls pred.now.name pred.now.arity ≡ None)
            (λ found. IsDeclaredAs (program_of self.now).decls pred.now.name pred.now.arity found.0
            found.1) }
    {
        self.tables.declared(pred)
    }

    /// The links beside a code that was compiled at run time, one for each instruction.
    pub fn links_beside(&self, alloc: Global, code: &[Instr]) -> Result<Links, AllocError>
        ensures { IfOk result (λ links. links
            ≡ map (link_beside (program_of self.now) (procedures_of self.now)) code.now) }
    {
        let links = self.tables.links_beside(alloc, code)?;
        Ok(links)
    }

    /// The instructions that a name means, where `called` are the codes that were compiled at run
    /// time. It takes no memory.
    pub fn code_of<'a>(&'a self, called: &'a [Code], name: CodeName) -> &'a [Instr]
        requires { (M : Contents) × (code : List Instr) × (M.codes ≡ called.now)
            × (code_of (procedures_of self.now) M name ≡ Some code) }
        ensures { (M : Contents) → M.codes ≡ called.now →
            code_of (procedures_of self.now) M name ≡ Some result.now }
    {
        match name {
            CodeName::OfClause(procedure, clause) => self.procedures[procedure as usize]
                .procedure
                .codes[clause as usize].as_slice(),
            CodeName::Called(place) => called[place as usize].as_slice(),
        }
    }

    // The link that is kept beside a place of a clause's code, if there is such a place.
    fn kept_link(&self, procedure: u32, clause: u32, place: usize) -> Option<Link>
        ensures { IfSome result (λ link. (M : Contents) (code : List Instr) (g : Pred) →
            code_of (procedures_of self.now) M (OfClause procedure clause) ≡ Some code →
            StandsAt code place (Call g) →
            link ≡ link_of (program_of self.now) (procedures_of self.now) g.name g.arity) }
    {
        let linked = self.procedures.get(procedure as usize)?;
        let links = linked.links.get(clause as usize)?;
        match links.as_slice().get(place) {
            Some(link) => Some(*link),
            None => None,
        }
    }

    /// The link of the call that stands at a place of a code, where `pred` is the predicate of
    /// that call. In a clause it is read beside the code; in a code that was compiled at run time
    /// it is looked up. It takes no memory.
    pub fn link_at(&self, name: CodeName, place: usize, pred: &Pred) -> Link
        ensures { (M : Contents) (code : List Instr) →
            code_of (procedures_of self.now) M name ≡ Some code →
            StandsAt code place (Call pred.now) →
            result ≡ link_of (program_of self.now) (procedures_of self.now) pred.now.name
            pred.now.arity }
    {
        match name {
            CodeName::OfClause(procedure, clause) => {
                match self.kept_link(procedure, clause, place) {
                    Some(link) => link,
                    None => self.tables.link_of(pred),
                }
            }
            CodeName::Called(_) => self.tables.link_of(pred),
        }
    }

    /// The predicate of a procedure, by its number.
    pub fn predicate(&self, procedure: u32) -> &Pred
        requires { (d : CompiledProcedure)
            × (slice_get (procedures_of self.now) procedure ≡ Some d) }
        ensures name { (d : CompiledProcedure) →
            slice_get (procedures_of self.now) procedure ≡ Some d → result.now.name ≡ d.name }
        ensures arity { (d : CompiledProcedure) →
            slice_get (procedures_of self.now) procedure ≡ Some d → result.now.arity ≡ d.arity }
    {
        &self.procedures[procedure as usize].procedure.pred
    }

    /// How many clauses a procedure has: one at least.
    pub fn clause_count(&self, procedure: u32) -> u32
        requires { (d : CompiledProcedure)
            × (slice_get (procedures_of self.now) procedure ≡ Some d) }
        ensures { (d : CompiledProcedure) →
            slice_get (procedures_of self.now) procedure ≡ Some d → result ≡ length d.clauses }
    {
        self.procedures[procedure as usize].procedure.codes.len() as u32
    }
}
