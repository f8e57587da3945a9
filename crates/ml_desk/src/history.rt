//! Histories.
ghost use Rattle.std.specs.Prelude.{◌≡◌};

use crate::entry::Entry;
use std::marker::Model;

/// The entries of sessions in an order, in which a store lists them as they end. Contracts see the
/// list.
#[derive(Drop)]
pub struct History {
    entries: Vec<Entry>,
}

impl Model for History {
    ghost use Rattle.std.specs.Coded.{coded_list};
    ghost use Rattle.std.specs.Prelude.{List};
    ghost use Rattle.ml_desk.specs.contracts.entry.Entry as entry;
    ghost use Rattle.ml_desk.specs.declared.entry.Entry.{Entry};

    ghost Value = { List Entry };

    ghost coded = { coded_list entry.the_row.coded };

    ghost view = { λ h. h.entries.items };
}

impl History {
    /// The history of these entries. It takes no memory.
    pub fn from_vec(entries: Vec<Entry>) -> History
        ensures { result ≡ entries.items }
    {
        History { entries }
    }

    /// The entries as a vector. It takes no memory.
    pub fn into_vec(self) -> Vec<Entry>
        ensures { result.items ≡ self }
    {
        let History { entries } = self;
        entries
    }

    /// The entries in their order. It takes no memory.
    pub fn as_slice(&self) -> &[Entry]
        ensures { result.now ≡ self.now }
    {
        self.entries.as_slice()
    }
}
