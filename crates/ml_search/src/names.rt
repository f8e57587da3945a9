//! The names of a goal's variables.
ghost use Rattle.std.specs.Prelude.{◌≡◌, IfOk};

use ml_term::Name;
use std::alloc::{AllocError, Global};
use std::marker::Model;

/// Names of variables, each with its variable's number. Contracts see the list of the pairs.
#[derive(Drop)]
pub struct Names {
    pairs: Vec<(Name, u32)>,
}

impl Model for Names {
    ghost use Rattle.std.specs.Prelude.{List, ℕ};

    ghost Value = { List (List ℕ × ℕ) };

    ghost view = { λ n. n.pairs.items };
}

impl Names {
    /// The list of a vector's pairs.
    pub fn from_vec(pairs: Vec<(Name, u32)>) -> Names
        ensures { result ≡ pairs.items }
    {
        Names { pairs }
    }

    /// The pairs as a vector.
    pub fn into_vec(self) -> Vec<(Name, u32)>
        ensures { result.items ≡ self }
    {
        let Names { pairs } = self;
        pairs
    }

    /// The names with their variables' numbers.
    pub fn as_slice(&self) -> &[(Name, u32)]
        ensures { result.now ≡ self.now }
    {
        self.pairs.as_slice()
    }

    /// Equal names.
    pub fn copy_of(&self, alloc: Global) -> Result<Names, AllocError>
        ensures { IfOk result (λ names. names ≡ self.now) }
    {
        let mut pairs = Vec::new(alloc);
        for (name, variable) in &self.pairs {
            pairs.push((name.copy_of(alloc)?, *variable))?;
        }
        Ok(Names { pairs })
    }
}
