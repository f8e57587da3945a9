//! Places of tuples, found by halves.
ghost use Rattle.std.specs.Prelude.{◌≡◌, ◌<◌, ◌≤◌, IsTrue, IfErr, IfOk, length};
ghost use Rattle.ml_list_desk.specs.inside.ItemList.{item_with};
ghost use Rattle.ml_list_desk.specs.Items.{items_seen};
ghost use Rattle.ml_list_desk.specs.inside.Places.{IsPlace, StandsAt};
ghost use Rattle.ml_search.specs.Db.{is_tuple, rises};
ghost use Rattle.ml_term.specs.Keys.{tuple_cmp};
ghost use Rattle.ml_term.specs.Seen.{seen};
ghost use Rattle.ml_term.specs.Valid.{is_valid};
ghost use Rattle.ml_term.specs.declared.declaration.Kind.TheVariants.{Relation};

use crate::plain_list::PlainList;
use ml_term::{Term, key_cmp};
use std::cmp::Ordering;

impl PlainList {
    /// The order of the item at a place and of a tuple by their keys.
    fn order_at(&self, at: usize, t: &Term) -> Ordering
        requires within { at < length self.now.items }
        requires relation { self.now.decl.kind ≡ Relation }
        requires tuple { IsTrue (is_tuple self.now.decl (seen t.now)) }
        ensures order { result ≡ tuple_cmp self.now.decl.keys
            (seen (item_with self.now.items at).term) (seen t.now) }
        ensures valid { IsTrue (is_valid (seen (item_with self.now.items at).term)) }
        ensures rising { IsTrue (rises self.now.decl.keys (items_seen self.now.items)) }
    {
        let number = self.numbers[at];
        key_cmp(&self.decl, &self.pool[number].term, t)
    }

    /// Where a tuple stands, or else the place that it has among the others. It takes no memory.
    pub fn find(&self, t: &Term) -> Result<usize, usize>
        requires relation { self.now.decl.kind ≡ Relation }
        requires tuple { IsTrue (is_tuple self.now.decl (seen t.now)) }
        ensures found { IfOk result (λ at. StandsAt (seen t.now) (items_seen self.now.items) at) }
        ensures found_within { IfOk result (λ at. at < length self.now.items) }
        ensures absent { IfErr result (λ at. IsPlace self.now.decl.keys (seen t.now)
            (items_seen self.now.items) at) }
        ensures absent_within { IfErr result (λ at. at ≤ length self.now.items) }
        ensures rising { IsTrue (rises self.now.decl.keys (items_seen self.now.items)) }
    {
        let mut low = 0;
        let mut high = self.numbers.len();
        'halves: while low < high {
            let middle = low + (high - low) / 2;
            match self.order_at(middle, t) {
                Ordering::Less => low = middle + 1,
                Ordering::Equal => return Ok(middle),
                Ordering::Greater => high = middle,
            }
        }
        Err(low)
    }
}
