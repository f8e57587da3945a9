//! The items that a pattern meets.
ghost use Rattle.std.specs.Prelude.{◌≡◌, ◌≢◌, ◌≤◌, ◌<◌, ◌++◌, IfOk, IsTrue, OnOk, length, map};
ghost use Rattle.std.specs.Prelude.{List};
ghost use Rattle.std.specs.Borrow.{Bor};
ghost use Rattle.std.specs.List.{AllPairs};
ghost use Rattle.std.specs.declared.cmp.Ordering.TheVariants.{Equal};
ghost use Rattle.ml_file.specs.Files.{items_in};
ghost use Rattle.ml_file.specs.Hits.{is_hit, hits_in, borrowed_items, stored_head};
ghost use Rattle.ml_file.specs.PlainList.{IsListOf, item_cmp};
ghost use Rattle.ml_region.specs.Regions.{items_at};
ghost use Rattle.ml_region.specs.declared.item.Item.{Item};
ghost use Rattle.ml_search.specs.Db.{is_allowed};
ghost use Rattle.ml_search.specs.Program.{is_of};
ghost use Rattle.ml_term.specs.Seen.{seen};
ghost use Rattle.ml_term.specs.Tree.{nodes};
ghost use Rattle.ml_term.specs.Valid.{is_valid};

use crate::file::BangFile;
use crate::order::item_order;
use ml_bits::OutOfMemory;
use ml_key::pattern_of;
use ml_region::Item;
use ml_search::unifies;
use ml_term::{Decl, Kind, MAX_TERM_NODES, Term};
use std::alloc::Global;

// The head of a stored term: a tuple itself, or a clause's head.
fn stored_head<'a>(decl: &Decl, t: &'a Term) -> &'a Term
    requires { IsTrue (is_allowed decl.now (seen t.now)) }
    ensures same { seen result.now ≡ stored_head decl.now.kind (seen t.now) }
    ensures valid { IsTrue (is_valid (seen result.now)) }
{
    match (decl.kind, t) {
        (Kind::Clauses, Term::Cmp(_, parts)) => &parts.as_slice()[0],
        _ => t,
    }
}

// Whether a pattern meets an item.
fn is_hit(alloc: Global, decl: &Decl, head: &Term, item: &Item) -> Result<bool, OutOfMemory>
    requires head { IsTrue (is_valid (seen head.now)) }
    requires item { IsTrue (is_allowed decl.now (seen item.now.term)) }
    ensures { IfOk result (λ is. is ≡ is_hit decl.now.kind (seen head.now) (seen item.now.term)) }
{
    Ok(unifies(alloc, head, stored_head(decl, &item.term))?)
}

// Different items in the order in which a file gives them. It takes no memory.
fn in_order(kind: Kind, items: Vec<&Item>) -> Vec<&Item>
    requires { AllPairs (λ a b. item_cmp kind a b ≢ Equal) (borrowed_items items.items) }
    ensures { IsListOf kind (borrowed_items items.entry.items) (borrowed_items result.items) }
{
    let mut sorted = items;
    sorted.sort_unstable_by(|a, b| item_order(kind, a, b));
    sorted
}

impl BangFile {
    // Puts the items of a region that a pattern meets behind those that were found.
    fn add_hits<'a>(
        &'a self,
        head: &Term,
        i: usize,
        found: &mut Vec<&'a Item>,
    ) -> Result<(), OutOfMemory>
        requires region { i < length self.now.regions }
        requires valid { IsTrue (is_valid (seen head.now)) }
        ensures { OnOk result (borrowed_items found.new.items
            ≡ borrowed_items found.old.items
            ++ hits_in self.now.decl.kind (seen head.now) (items_at self.now.regions i)) }
    {
        let alloc = *found.allocator();
        for item in self.regions.items(i) {
            if is_hit(alloc, &self.decl, head, item)? {
                found.push(item)?;
            }
        }
        Ok(())
    }

    /// Whether a pattern meets an item that the file may have: whether the item's head unifies with
    /// it when renamed apart.
    pub fn meets(&self, head: &Term, item: &Item) -> Result<bool, OutOfMemory>
        requires head { IsTrue (is_valid (seen head.now)) }
        requires item { IsTrue (is_allowed self.now.decl (seen item.now.term)) }
        ensures { IfOk result (λ is.
            is ≡ is_hit self.now.decl.kind (seen head.now) (seen item.now.term)) }
    {
        is_hit(self.alloc, &self.decl, head, item)
    }

    /// The items that a pattern meets, each once and in their order: those whose heads unify with
    /// it when renamed apart. A clause's head is that of its term, and a tuple is its own. The
    /// pattern is of the declared predicate and has at most 4,096 nodes.
    pub fn hits(&self, head: &Term) -> Result<Vec<&Item>, OutOfMemory>
        requires declared { IsTrue (is_of self.now.decl.pred.name self.now.decl.pred.arity
            (seen head.now)) }
        requires valid { IsTrue (is_valid (seen head.now)) }
        requires small { nodes (seen head.now) ≤ MAX_TERM_NODES }
        ensures { IfOk result (λ found. IsListOf self.now.decl.kind
            (hits_in self.now.decl.kind (seen head.now) (items_in self.now.regions))
            (borrowed_items found.items)) }
    {
        let _well_placed = self.regions.len();
        let prefixes = self.regions.compatible(&pattern_of(&self.decl, head))?;
        let mut found = Vec::new(*prefixes.allocator());
        for prefix in prefixes.iter() {
            let region = self.regions.owner_of(prefix);
            self.add_hits(head, region, &mut found)?;
        }
        Ok(in_order(self.decl.kind, found))
    }

    /// Copies of the terms of the items that a pattern meets, in the items' order.
    pub fn matches(&self, head: &Term) -> Result<Vec<Term>, OutOfMemory>
        requires declared { IsTrue (is_of self.now.decl.pred.name self.now.decl.pred.arity
            (seen head.now)) }
        requires valid { IsTrue (is_valid (seen head.now)) }
        requires small { nodes (seen head.now) ≤ MAX_TERM_NODES }
        ensures { IfOk result (λ found. (list : List Item) × (IsListOf self.now.decl.kind
            (hits_in self.now.decl.kind (seen head.now) (items_in self.now.regions)) list
            × (found.items ≡ map (λ (x : Item). x.term) list))) }
    {
        let hits = self.hits(head)?;
        let alloc = *hits.allocator();
        let mut found = Vec::new(alloc);
        for item in hits.iter() {
            found.push(item.term.copy_of(alloc)?)?;
        }
        Ok(found)
    }
}
