//! Lists that a desk is made of.
ghost use Rattle.std.specs.Prelude.{◌≡◌, IsTrue, IfOk, map};
ghost use Rattle.ml_list_desk.specs.Items.{items_seen, lists_of_terms, lists_seen};
ghost use Rattle.ml_list_desk.specs.inside.Standing.{db_of, decls_of};
ghost use Rattle.ml_search.specs.Db.{is_db, load_list_from, load_lists};
ghost use Rattle.ml_term.specs.Seen.{seen};

use crate::list_item::{ListItem, ListItems, Place};
use crate::plain_list::PlainList;
use ml_search::Decls;
use ml_term::Terms;
use std::alloc::{AllocError, Global};

// The loaded items of some terms: their numbers are their places, which have 32 bits.
fn loaded_items(alloc: Global, terms: Terms) -> Result<ListItems, AllocError>
    ensures { IfOk result (λ items. items_seen items ≡ load_list_from 0 (map seen terms)) }
{
    let mut items = Vec::new(alloc);
    let mut change = 0;
    for term in terms.into_vec() {
        items.push(ListItem {
            place: Place::At(0),
            change,
            term,
        })?;
        if change == u32::MAX {
            return Err(AllocError);
        }
        change += 1;
    }
    Ok(ListItems::from_vec(items))
}

/// The loaded items of some lists of terms.
pub(crate) fn loaded_lists(alloc: Global, lists: Vec<Terms>) -> Result<Vec<ListItems>, AllocError>
    ensures { IfOk result (λ items.
        lists_seen items.items ≡ load_lists (lists_of_terms lists.items)) }
{
    let mut items = Vec::new(alloc);
    for list in lists {
        let loaded = loaded_items(alloc, list)?;
        items.push(loaded)?;
    }
    Ok(items)
}

/// A list for each declaration, with its items.
pub(crate) fn plain_lists(
    alloc: Global,
    decls: &Decls,
    items: Vec<ListItems>,
) -> Result<Vec<PlainList>, AllocError>
    requires { IsTrue (is_db decls.now (lists_seen items.items)) }
    ensures decls { IfOk result (λ lists. decls_of lists.items ≡ decls.now) }
    ensures items { IfOk result (λ lists. db_of lists.items ≡ lists_seen items.items) }
{
    let mut lists = Vec::new(alloc);
    for list in items {
        let place = lists.len();
        let found = decls.at(place);
        let decl = found.copy_of(alloc)?;
        let held = list.into_vec();
        let plain = PlainList::new(alloc, decl, held)?;
        lists.push(plain)?;
    }
    Ok(lists)
}
