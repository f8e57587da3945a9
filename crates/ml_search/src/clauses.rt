//! Lists of clauses.
ghost use Rattle.std.specs.Prelude.{◌≡◌, IfOk};

use crate::clause::Clause;
use std::alloc::{AllocError, Global};
use std::marker::Model;

/// Clauses, one after another. Contracts see the list.
#[derive(Drop)]
pub struct Clauses {
    items: Vec<Clause>,
}

impl Model for Clauses {
    ghost use Rattle.std.specs.Coded.{coded_list};
    ghost use Rattle.std.specs.Prelude.{List};
    ghost use Rattle.ml_search.specs.contracts.clause.Clause as clause;
    ghost use Rattle.ml_search.specs.declared.clause.Clause.{Clause};

    ghost Value = { List Clause };

    ghost coded = { coded_list clause.the_row.coded };

    ghost view = { λ c. c.items.items };
}

impl Clauses {
    /// The list of a vector's clauses.
    pub fn from_vec(items: Vec<Clause>) -> Clauses
        ensures { result ≡ items.items }
    {
        Clauses { items }
    }

    /// The clauses as a vector.
    pub fn into_vec(self) -> Vec<Clause>
        ensures { result.items ≡ self }
    {
        let Clauses { items } = self;
        items
    }

    /// The clauses as a slice.
    pub fn as_slice(&self) -> &[Clause]
        ensures { result.now ≡ self.now }
    {
        self.items.as_slice()
    }

    /// An equal list.
    pub fn copy_of(&self, alloc: Global) -> Result<Clauses, AllocError>
        ensures { IfOk result (λ clauses. clauses ≡ self.now) }
    {
        let mut items = Vec::new(alloc);
        for clause in self.as_slice() {
            items.push(clause.copy_of(alloc)?)?;
        }
        Ok(Clauses { items })
    }
}
