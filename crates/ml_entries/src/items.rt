//! Items of plain lists between two sessions.
ghost use Rattle.std.specs.Prelude.{◌≡◌, IfOk, IsTrue, map};
ghost use Rattle.ml_list_desk.specs.Items.{item_seen, items_seen, lists_seen};
ghost use Rattle.ml_entries.specs.Entries.{AreLists};
ghost use Rattle.ml_search.specs.History.{commit_at, item_at};
ghost use Rattle.ml_search.specs.ItemsSeen.{items_seen as given_seen};
ghost use Rattle.ml_search.specs.Loading.{are_items, first_db};

use ml_isolation::lists::lists_stay_lists;
use ml_list_desk::{ListDesk, ListItem, ListItems, Place};
use ml_loading::first_lists;
use ml_search::Decls;
use ml_term::Term;
use std::alloc::{AllocError, Global};

/// The items with which a run begins, from items with their declarations' places.
pub fn first_items(
    alloc: Global,
    decls: &Decls,
    items: Vec<(u32, Term)>,
) -> Result<Vec<ListItems>, AllocError>
    requires { IsTrue (are_items decls.now (given_seen items.items)) }
    ensures first { IfOk result (λ first.
        lists_seen first.items ≡ first_db decls.now (given_seen items.items)) }
    ensures lists { IfOk result (λ first. AreLists decls.now 1 (lists_seen first.items)) }
{
    lists_stay_lists();
    let lists = first_lists(alloc, decls, items)?;
    let desk = ListDesk::new(alloc, decls, lists)?;
    let first = desk.into_items()?;
    Ok(first)
}

/// Equal items.
pub fn copy_of(alloc: Global, lists: &[ListItems]) -> Result<Vec<ListItems>, AllocError>
    ensures { IfOk result (λ copies. copies.items ≡ lists.now) }
{
    let mut copies = Vec::new(alloc);
    for list in lists {
        copies.push(list.copy_of(alloc)?)?;
    }
    Ok(copies)
}

/// The items as the entry at a place commits them: a session's own ones get that place.
pub fn committed(
    alloc: Global,
    lists: Vec<ListItems>,
    place: u32,
) -> Result<Vec<ListItems>, AllocError>
    ensures { IfOk result (λ placed.
        lists_seen placed.items ≡ commit_at place (lists_seen lists.items)) }
{
    let mut placed = Vec::new(alloc);
    for list in lists {
        placed.push(placed_list(alloc, list, place)?)?;
    }
    Ok(placed)
}

// The items of one list, of which a session's own ones get a place.
fn placed_list(alloc: Global, list: ListItems, place: u32) -> Result<ListItems, AllocError>
    ensures { IfOk result (λ placed. items_seen placed ≡ map (item_at place) (items_seen list)) }
{
    let mut placed = Vec::new(alloc);
    for item in list.into_vec() {
        placed.push(placed_item(item, place))?;
    }
    Ok(ListItems::from_vec(placed))
}

// An item, which gets a place where it is a session's own.
fn placed_item(item: ListItem, place: u32) -> ListItem
    ensures { item_seen result ≡ item_at place (item_seen item) }
{
    match item.place {
        Place::At(_) => item,
        Place::Mine => ListItem {
            place: Place::At(place),
            change: item.change,
            term: item.term,
        },
    }
}
