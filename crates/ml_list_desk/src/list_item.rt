//! Items of plain lists.
ghost use Rattle.std.specs.Prelude.{◌≡◌, IfOk};
ghost use Rattle.ml_list_desk.specs.Items.{id_seen};
ghost use Rattle.ml_search.specs.Db.{is_same_id};

use ml_term::Term;
use std::alloc::{AllocError, Global};
use std::marker::Model;

/// The place in the history of the entry that committed an item.
#[derive(Clone, Copy, PartialEq, Eq)]
pub enum Place {
    /// The place of an entry, from 1, or 0 for a loaded item.
    At(u32),
    /// No entry committed the item yet: it is the session's own.
    Mine,
}

/// An item of a plain list: its id, which is its place and the number of its change there, and the
/// tuple, or the clause as `:-(Head, Body)`.
#[derive(Drop)]
pub struct ListItem {
    pub place: Place,
    pub change: u32,
    pub term: Term,
}

impl ListItem {
    /// An equal item.
    pub fn copy_of(&self, alloc: Global) -> Result<ListItem, AllocError>
        ensures { IfOk result (λ item. item ≡ self.now) }
    {
        Ok(ListItem {
            place: self.place,
            change: self.change,
            term: self.term.copy_of(alloc)?,
        })
    }

    /// Whether the item has this id. It takes no memory.
    pub(crate) fn has_id(&self, place: Place, change: u32) -> bool
        ensures { result ≡ is_same_id (id_seen self.now.place self.now.change)
            (id_seen place change) }
    {
        match (self.place, place) {
            (Place::At(own), Place::At(other)) => own == other && self.change == change,
            (Place::Mine, Place::Mine) => self.change == change,
            _ => false,
        }
    }
}

/// Any number of items of a plain list. Contracts see the list.
#[derive(Drop)]
pub struct ListItems {
    items: Vec<ListItem>,
}

impl Model for ListItems {
    ghost use Rattle.std.specs.Coded.{coded_list};
    ghost use Rattle.std.specs.Prelude.{List};
    ghost use Rattle.ml_list_desk.specs.contracts.list_item.ListItem as item;
    ghost use Rattle.ml_list_desk.specs.declared.list_item.ListItem.{ListItem};

    ghost Value = { List ListItem };

    ghost coded = { coded_list item.the_row.coded };

    ghost view = { λ l. l.items.items };
}

impl ListItems {
    /// The list of a vector's items. It takes no memory.
    pub fn from_vec(items: Vec<ListItem>) -> ListItems
        ensures { result ≡ items.items }
    {
        ListItems { items }
    }

    /// The items as a vector. It takes no memory.
    pub fn into_vec(self) -> Vec<ListItem>
        ensures { result.items ≡ self }
    {
        let ListItems { items } = self;
        items
    }

    /// The items as a slice. It takes no memory.
    pub fn as_slice(&self) -> &[ListItem]
        ensures { result.now ≡ self.now }
    {
        self.items.as_slice()
    }

    /// An equal list.
    pub fn copy_of(&self, alloc: Global) -> Result<ListItems, AllocError>
        ensures { IfOk result (λ items. items ≡ self.now) }
    {
        let mut items = Vec::new(alloc);
        for item in self.as_slice() {
            items.push(item.copy_of(alloc)?)?;
        }
        Ok(ListItems { items })
    }
}
