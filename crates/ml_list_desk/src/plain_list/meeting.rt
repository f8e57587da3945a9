//! The items that a pattern meets.
ghost use Rattle.std.specs.Prelude.{◌≡◌, IsTrue, IfOk};
ghost use Rattle.std.specs.List.{filter};
ghost use Rattle.ml_list_desk.specs.inside.ItemList.{are_within, is_met, items_with, stored_head};
ghost use Rattle.ml_list_desk.specs.Items.{item_seen, items_seen};
ghost use Rattle.ml_search.specs.Db.{is_allowed};
ghost use Rattle.ml_term.specs.Seen.{seen};
ghost use Rattle.ml_term.specs.Valid.{is_valid};

use crate::list_item::ListItem;
use crate::plain_list::PlainList;
use ml_search::unifies;
use ml_term::{Decl, Kind, Term};
use std::alloc::{AllocError, Global};

/// The head of a stored term: a tuple itself, or a clause's head.
fn stored_head<'a>(decl: &Decl, t: &'a Term) -> &'a Term
    requires { IsTrue (is_allowed decl.now (seen t.now)) }
    ensures same { seen result.now ≡ stored_head decl.now.kind (seen t.now) }
    ensures valid { IsTrue (is_valid (seen result.now)) }
{
    match (decl.kind, t) {
        (Kind::Clauses, Term::Cmp(_, parts)) => &parts.as_slice()[0],
        _ => t,
    }
}

/// Whether a pattern meets an item: its head unifies with the pattern when renamed apart.
fn is_met(alloc: Global, decl: &Decl, pattern: &Term, item: &ListItem) -> Result<bool, AllocError>
    requires pattern { IsTrue (is_valid (seen pattern.now)) }
    requires item { IsTrue (is_allowed decl.now (seen item.now.term)) }
    ensures { IfOk result (λ met. met ≡ is_met decl.now (seen pattern.now) (item_seen item.now)) }
{
    unifies(alloc, pattern, stored_head(decl, &item.term))
}

impl PlainList {
    /// The numbers of the items that a pattern meets, in the list's order. No term is copied.
    pub fn meeting(&self, pattern: &Term) -> Result<Vec<usize>, AllocError>
        requires { IsTrue (is_valid (seen pattern.now)) }
        ensures members { IfOk result (λ found.
            items_seen (items_with self.now.pool found.items)
            ≡ filter (is_met self.now.decl (seen pattern.now)) (items_seen self.now.items)) }
        ensures within { IfOk result (λ found. IsTrue (are_within self.now.pool found.items)) }
    {
        let alloc = *self.pool.allocator();
        let mut found = Vec::new(alloc);
        for at in 0..self.numbers.len() {
            let number = self.numbers[at];
            if is_met(alloc, &self.decl, pattern, &self.pool[number])? {
                found.push(number)?;
            }
        }
        Ok(found)
    }
}
