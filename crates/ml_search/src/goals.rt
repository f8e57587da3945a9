//! Lists of goals.
ghost use Rattle.std.specs.Prelude.{◌≡◌, IfOk};

use crate::goal::Goal;
use std::alloc::{AllocError, Global};
use std::marker::Model;

/// Goals, one after another. Contracts see the list.
#[derive(Drop)]
pub struct Goals {
    items: Vec<Goal>,
}

impl Model for Goals {
    ghost use Rattle.std.specs.Coded.{coded_list};
    ghost use Rattle.std.specs.Prelude.{List};
    ghost use Rattle.ml_search.specs.contracts.goal.Goal as goal;
    ghost use Rattle.ml_search.specs.declared.goal.Goal.{Goal};

    ghost Value = { List Goal };

    ghost coded = { coded_list goal.the_row.coded };

    ghost view = { λ g. g.items.items };
}

impl Goals {
    /// The list of a vector's goals.
    pub fn from_vec(items: Vec<Goal>) -> Goals
        ensures { result ≡ items.items }
    {
        Goals { items }
    }

    /// The goals as a vector.
    pub fn into_vec(self) -> Vec<Goal>
        ensures { result.items ≡ self }
    {
        let Goals { items } = self;
        items
    }

    /// The goals as a slice.
    pub fn as_slice(&self) -> &[Goal]
        ensures { result.now ≡ self.now }
    {
        self.items.as_slice()
    }

    /// An equal list.
    pub fn copy_of(&self, alloc: Global) -> Result<Goals, AllocError>
        ensures { IfOk result (λ goals. goals ≡ self.now) }
    {
        let mut items = Vec::new(alloc);
        for goal in self.as_slice() {
            items.push(goal.copy_of(alloc)?)?;
        }
        Ok(Goals { items })
    }
}
