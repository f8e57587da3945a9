//! Rules as they are read.
pub mod declaration;
pub mod form;
pub mod items;
pub mod part;
pub mod rules_file;
pub mod rules_of;

ghost use Rattle.std.specs.Prelude.{IsTrue};
ghost use Rattle.ml_search.specs.ItemsSeen.{items_seen};
ghost use Rattle.ml_search.specs.Loading.{are_items};

use crate::rules::items::Items;
use ml_search::Program;

/// A program, and in the order of the text the items that the lists of declared predicates have at
/// first, each with its declaration's place. An item is a ground tuple of its relation, or a clause
/// `:-(HEAD, BODY)` of its list, with at most 4,096 canonical bytes.
#[derive(Drop)]
pub struct Rules {
    pub program: Program,
    pub items: Items,
    pub ghost well_formed: { IsTrue (are_items program.decls (items_seen items)) },
}
