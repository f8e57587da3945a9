//! The variables that a line met, and the number with which each is written.
ghost use Rattle.std.specs.Prelude.{◌≡◌, false, [], ◌∷◌, ◌++◌, OnOk, IfOk};
ghost use Rattle.ml_term.specs.Tree.{firsts, has};
ghost use Rattle.ml_term.specs.Text.{number_in};

use std::alloc::{AllocError, Global};
use std::collections::BTreeMap;
use std::marker::Model;

/// The variables that a line met. Contracts see their list, each once, by first place.
#[derive(Drop)]
pub struct MetVariables {
    variables: Vec<u32>,
    numbers: BTreeMap<u32, u64>,
}

impl Model for MetVariables {
    ghost use Rattle.std.specs.Prelude.{List, ℕ};
    ghost use Rattle.ml_writer.specs.inside.MetTable.{IsMetTable};

    ghost Value = { List ℕ };

    ghost view = { λ m. m.variables.items };

    ghost invariant = { λ m. IsMetTable m.variables.items m.numbers };
}

impl MetVariables {
    /// No variables.
    pub fn new(alloc: Global) -> MetVariables
        ensures { result ≡ [] }
    {
        MetVariables {
            variables: Vec::new(alloc),
            numbers: BTreeMap::new(alloc),
        }
    }

    /// The number of a variable, from 1. One that the line hasn't met gets the next number, and is
    /// met from then on.
    pub fn number(&mut self, variable: u32) -> Result<u64, AllocError>
        ensures number { IfOk result (λ n.
            n ≡ number_in (firsts (self.old ++ variable ∷ [])) variable) }
        ensures met { OnOk result (self.new ≡ firsts (self.old ++ variable ∷ [])) }
    {
        match self.numbers.get(&variable).copied() {
            Some(number) => Ok(number),
            None => self.add(variable),
        }
    }

    // Gives a variable that the line hasn't met the next number.
    fn add(&mut self, variable: u32) -> Result<u64, AllocError>
        requires { has variable self.old ≡ false }
        ensures number { IfOk result (λ n.
            n ≡ number_in (firsts (self.old ++ variable ∷ [])) variable) }
        ensures met { OnOk result (self.new ≡ firsts (self.old ++ variable ∷ [])) }
    {
        let number = self.variables.len() as u64 + 1;
        self.variables.push(variable)?;
        match self.numbers.insert(variable, number) {
            Ok(_) => Ok(number),
            Err(refused) => {
                let _ = self.variables.pop();
                Err(AllocError::from(refused))
            }
        }
    }
}
