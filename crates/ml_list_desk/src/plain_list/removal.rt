//! Clauses taken out by their ids.
ghost use Rattle.std.specs.Prelude.{◌≡◌, ◌<◌, length, if◌then◌else◌};
ghost use Rattle.std.specs.List.{remove};
ghost use Rattle.std.specs.Option.{is_some};
ghost use Rattle.ml_list_desk.specs.inside.ItemList.{item_with};
ghost use Rattle.ml_list_desk.specs.Items.{id_seen, item_seen, items_seen};
ghost use Rattle.ml_search.specs.Changes.{without_id};
ghost use Rattle.ml_search.specs.Db.{is_same_id, with_id};

use crate::list_item::{ListItem, Place};
use crate::plain_list::PlainList;

impl PlainList {
    /// The item at a place.
    pub fn item_at(&self, at: usize) -> &ListItem
        requires { at < length self.now.items }
        ensures { result.now ≡ item_with self.now.items at }
    {
        let number = self.numbers[at];
        &self.pool[number]
    }

    // Takes out the item at a place if it has an id, and says whether it had.
    #[tactic(auto, using(crate::proofs::Sweeping::seen_removed))]
    fn remove_if(&mut self, at: usize, place: Place, change: u32) -> bool
        requires { at < length self.old.items }
        ensures gone { result ≡ is_same_id (item_seen (item_with self.old.items at)).id
            (id_seen place change) }
        ensures items { items_seen self.new.items
            ≡ (if result then remove (items_seen self.old.items) at
            else items_seen self.old.items) }
        ensures decl { self.new.decl ≡ self.old.decl }
        ensures pool { self.new.pool ≡ self.old.pool }
    {
        if !self.item_at(at).has_id(place, change) {
            return false;
        }
        self.remove(at);
        true
    }

    /// Takes out the item with an id, and says whether it was there. It takes no memory.
    pub fn remove_id(&mut self, place: Place, change: u32) -> bool
        ensures found { result ≡ is_some (with_id (id_seen place change)
            (items_seen self.old.items)) }
        ensures items { items_seen self.new.items ≡ without_id (id_seen place change)
            (items_seen self.old.items) }
        ensures decl { self.new.decl ≡ self.old.decl }
        ensures pool { self.new.pool ≡ self.old.pool }
    {
        let mut found = false;
        let count = self.numbers.len();
        for k in 0..count {
            let at = count - 1 - k;
            let gone = self.remove_if(at, place, change);
            found |= gone;
        }
        found
    }
}
