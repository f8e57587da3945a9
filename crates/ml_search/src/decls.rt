//! The declarations of a program.
ghost use Rattle.std.specs.Prelude.{◌≡◌, ◌<◌, ◌≤◌, ◌++◌, ◌∷◌, [], IsTrue, IfOk, IfSome, OnOk};
ghost use Rattle.std.specs.Prelude.{OnErr, None, Some, length, slice_get};
ghost use Rattle.ml_search.specs.Limits.{max_declarations};
ghost use Rattle.ml_search.specs.Program.{place_of};
ghost use Rattle.ml_search.specs.WellFormed.{are_declared_once};

use indexmap::IndexMap;
use ml_term::{Decl, Pred};
use std::alloc::{AllocError, Global};
use std::marker::Model;

/// Declarations of different predicates in their order, at most `MAX_DECLARATIONS`, found by
/// predicate. Contracts see the list.
#[derive(Drop)]
pub struct Decls {
    table: IndexMap<Pred, Decl>,
}

impl Model for Decls {
    ghost use Rattle.std.specs.Coded.{coded_list};
    ghost use Rattle.std.specs.Prelude.{List};
    ghost use Rattle.indexmap.specs.IndexMap.{values};
    ghost use Rattle.ml_search.specs.inside.DeclTable.{IsDeclared};
    ghost use Rattle.ml_term.specs.contracts.declaration.Decl as decl;
    ghost use Rattle.ml_term.specs.declared.declaration.Decl.{Decl};

    ghost Value = { List Decl };

    ghost coded = { coded_list decl.the_row.coded };

    ghost view = { λ d. values d.table };

    ghost invariant = { λ d. IsDeclared d.table.entries };
}

impl Decls {
    /// No declarations. It takes no memory.
    pub fn new(alloc: Global) -> Decls
        ensures { result ≡ [] }
    {
        Decls {
            table: IndexMap::new(alloc),
        }
    }

    /// Puts a declaration of a predicate that isn't declared behind all others. Where memory is
    /// refused, the declarations stay as they were.
    pub fn add(&mut self, decl: Decl) -> Result<(), AllocError>
        requires other { place_of self.old decl.pred.name decl.pred.arity ≡ None }
        requires room { length self.old < max_declarations }
        ensures ok { OnOk result (self.new ≡ self.old ++ decl ∷ []) }
        ensures err { OnErr result (self.new ≡ self.old) }
    {
        let pred = decl.pred.copy_of(*self.table.allocator())?;
        self.table.insert(pred, decl)?;
        Ok(())
    }

    /// How many declarations there are. No two are of one predicate.
    pub fn len(&self) -> usize
        ensures same { result ≡ length self.now }
        ensures few { length self.now ≤ max_declarations }
        ensures once { IsTrue (are_declared_once self.now) }
    {
        self.table.len()
    }

    /// The declaration at a place, from 0.
    pub fn at(&self, i: usize) -> &Decl
        requires { i < length self.now }
        ensures { slice_get self.now i ≡ Some result.now }
    {
        &self.table[i]
    }

    /// The place of a predicate's declaration, from 0; none where it isn't declared. It takes no
    /// memory.
    pub fn place_of(&self, pred: &Pred) -> Option<usize>
        ensures same { result ≡ place_of self.now pred.now.name pred.now.arity }
        ensures within { IfSome result (λ i. i < length self.now) }
    {
        self.table.get_index_of(pred)
    }

    /// Equal declarations in the same order.
    pub fn copy_of(&self, alloc: Global) -> Result<Decls, AllocError>
        ensures { IfOk result (λ decls. decls ≡ self.now) }
    {
        let mut decls = Decls::new(alloc);
        for i in 0..self.len() {
            decls.add(self.at(i).copy_of(alloc)?)?;
        }
        Ok(decls)
    }
}
