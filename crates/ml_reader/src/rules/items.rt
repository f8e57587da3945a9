//! Lists of items.
ghost use Rattle.std.specs.Prelude.{◌≡◌, IfOk};

use ml_term::Term;
use std::alloc::{AllocError, Global};
use std::marker::Model;

/// Items, each with its declaration's place, from 0. Contracts see the list of the pairs.
#[derive(Drop)]
pub struct Items {
    pairs: Vec<(u32, Term)>,
}

impl Model for Items {
    ghost use Rattle.std.specs.Coded.{coded_list, coded_ℕ, coded×};
    ghost use Rattle.std.specs.Prelude.{List, ℕ};
    ghost use Rattle.ml_term.specs.contracts.term.Term as term;
    ghost use Rattle.ml_term.specs.declared.term.Term.{Term};

    ghost Value = { List (ℕ × Term) };

    ghost coded = { coded_list (coded× coded_ℕ term.the_row.coded) };

    ghost view = { λ i. i.pairs.items };
}

impl Items {
    /// The list of a vector's pairs.
    pub fn from_vec(pairs: Vec<(u32, Term)>) -> Items
        ensures { result ≡ pairs.items }
    {
        Items { pairs }
    }

    /// The pairs as a vector.
    pub fn into_vec(self) -> Vec<(u32, Term)>
        ensures { result.items ≡ self }
    {
        let Items { pairs } = self;
        pairs
    }

    /// The items with their declarations' places.
    pub fn as_slice(&self) -> &[(u32, Term)]
        ensures { result.now ≡ self.now }
    {
        self.pairs.as_slice()
    }

    /// An equal list.
    pub fn copy_of(&self, alloc: Global) -> Result<Items, AllocError>
        ensures { IfOk result (λ items. items ≡ self.now) }
    {
        let mut pairs = Vec::new(alloc);
        for (place, term) in &self.pairs {
            pairs.push((*place, term.copy_of(alloc)?))?;
        }
        Ok(Items { pairs })
    }
}
