//! The tables by which links are made.
ghost use Rattle.std.specs.Prelude.{◌≡◌, IfOk, List, map, MatchOption, None};
ghost use Rattle.ml_program.specs.DeclaredLists.{IsDeclaredAs};
ghost use Rattle.ml_program.specs.Links.{link_beside, link_of};
ghost use Rattle.ml_program.specs.inside.Filing.{procedure_seen, procedures_seen};
ghost use Rattle.ml_program.specs.inside.Linking.{AreLinked, AreTablesOf};
ghost use Rattle.ml_search.specs.Program.{declaration_of, Program};
ghost use Rattle.ml_stack.specs.Memories.{CompiledProcedure};

use crate::link::Link;
use crate::links::Links;
use crate::names::{control_call, plain_call, store_call};
use crate::procedure::{LinkedProcedure, Procedure};
use indexmap::IndexSet;
use ml_compile::{Code, Instr};
use ml_search::Decls;
use ml_term::{Kind, Pred};
use std::alloc::{AllocError, Global};

/// The declarations of a program, and the predicates of its procedures in their order.
#[derive(Drop)]
pub(crate) struct Tables {
    pub decls: Decls,
    pub places: IndexSet<Pred>,
}

impl Tables {
    /// The link of a predicate. It takes no memory.
    pub(crate) fn link_of(&self, pred: &Pred) -> Link
        requires { (program : Program) × (ps : List CompiledProcedure)
            × AreTablesOf program ps self.now.decls self.now.places.keys }
        ensures { (program : Program) (ps : List CompiledProcedure) →
            AreTablesOf program ps self.now.decls self.now.places.keys →
            result ≡ link_of program ps pred.now.name pred.now.arity }
    {
        if let Some(control) = control_call(pred) {
            return Link::Control(control);
        }
        if let Some(plain) = plain_call(pred) {
            return Link::Plain(plain);
        }
        if let Some(store) = store_call(pred) {
            return Link::Store(store);
        }
        if let Some(place) = self.decls.place_of(pred) {
            return Link::Declared(self.decls.at(place).kind, place as u32);
        }
        match self.places.get_index_of(pred) {
            Some(place) => Link::Procedure(place as u32),
            None => Link::Unknown,
        }
    }

    /// The kind of a declared predicate and the number of its list. It takes no memory.
    pub(crate) fn declared(&self, pred: &Pred) -> Option<(Kind, u32)>
        requires { (program : Program) × (ps : List CompiledProcedure)
            × AreTablesOf program ps self.now.decls self.now.places.keys }
        ensures { (program : Program) (ps : List CompiledProcedure) →
            AreTablesOf program ps self.now.decls self.now.places.keys →
            MatchOption result
            (declaration_of program.decls pred.now.name pred.now.arity ≡ None)
            (λ found. IsDeclaredAs program.decls pred.now.name pred.now.arity found.0 found.1) }
    {
        match self.decls.place_of(pred) {
            Some(place) => Some((self.decls.at(place).kind, place as u32)),
            None => None,
        }
    }

    /// What stands beside an instruction. It takes no memory.
    fn link_beside(&self, instr: &Instr) -> Link
        requires { (program : Program) × (ps : List CompiledProcedure)
            × AreTablesOf program ps self.now.decls self.now.places.keys }
        ensures { (program : Program) (ps : List CompiledProcedure) →
            AreTablesOf program ps self.now.decls self.now.places.keys →
            result ≡ link_beside program ps instr.now }
    {
        match instr {
            Instr::Call(pred) => self.link_of(pred),
            _ => Link::Unknown,
        }
    }

    /// The links beside a code.
    pub(crate) fn links_beside(&self, alloc: Global, code: &[Instr]) -> Result<Links, AllocError>
        requires { (program : Program) × (ps : List CompiledProcedure)
            × AreTablesOf program ps self.now.decls self.now.places.keys }
        ensures { IfOk result (λ links. (program : Program) (ps : List CompiledProcedure) →
            AreTablesOf program ps self.now.decls self.now.places.keys →
            links ≡ map (link_beside program ps) code.now) }
    {
        let mut links = Vec::new(alloc);
        for instr in code {
            links.push(self.link_beside(instr))?;
        }
        Ok(Links::from_vec(links))
    }

    /// The links beside codes.
    fn links_of_all(&self, alloc: Global, codes: &[Code]) -> Result<Vec<Links>, AllocError>
        requires { (program : Program) × (ps : List CompiledProcedure)
            × AreTablesOf program ps self.now.decls self.now.places.keys }
        ensures { IfOk result (λ links. (program : Program) (ps : List CompiledProcedure) →
            AreTablesOf program ps self.now.decls self.now.places.keys →
            links.items ≡ map (map (link_beside program ps)) codes.now) }
    {
        let mut links = Vec::new(alloc);
        for code in codes {
            let beside = self.links_beside(alloc, code.as_slice())?;
            links.push(beside)?;
        }
        Ok(links)
    }

    /// Procedures with the links beside their codes.
    pub(crate) fn link_all(
        &self,
        alloc: Global,
        procedures: Vec<Procedure>,
    ) -> Result<Vec<LinkedProcedure>, AllocError>
        requires { (program : Program) × (ps : List CompiledProcedure)
            × AreTablesOf program ps self.now.decls self.now.places.keys }
        ensures same { IfOk result (λ linked.
            map (λ l. procedure_seen l.procedure) linked.items
            ≡ procedures_seen procedures.items) }
        ensures linked { IfOk result (λ linked. (program : Program)
            (ps : List CompiledProcedure) →
            AreTablesOf program ps self.now.decls self.now.places.keys →
            AreLinked program ps linked.items) }
    {
        let mut linked = Vec::new(alloc);
        for procedure in procedures {
            let links = self.links_of_all(alloc, procedure.codes.as_slice())?;
            linked.push(LinkedProcedure { procedure, links })?;
        }
        Ok(linked)
    }
}
