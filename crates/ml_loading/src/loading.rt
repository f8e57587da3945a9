//! The lists with which a run begins.
ghost use Rattle.std.specs.Prelude.{◌≡◌, ◌<◌, [], IsTrue, IfOk, OnOk, length, map, replicate};
ghost use Rattle.std.specs.List.{All};
ghost use Rattle.ml_loading.specs.Items.{AreSized, gathered, in_order, with_term};
ghost use Rattle.ml_loading.specs.KeyOrder.{size};
ghost use Rattle.ml_loading.specs.Lists.{all_trees, trees};
ghost use Rattle.ml_search.specs.ItemsSeen.{items_seen};
ghost use Rattle.ml_search.specs.Loading.{are_items, first_list, first_lists};
ghost use Rattle.ml_term.specs.Seen.{all_seen, seen};
ghost use Rattle.ml_term.specs.declared.declaration.Kind.TheVariants.{Relation};

use crate::key_order::in_key_order;
use crate::valid_term::ValidTerm;
use ml_search::Decls;
use ml_term::{Decl, Kind, Term, Terms};
use std::alloc::{AllocError, Global};

/// The first list of each declaration, of items that are given with their declarations' places,
/// from 0: a relation's tuples in the order of their keys, each once, and clauses in the order in
/// which they are given.
pub fn first_lists(
    alloc: Global,
    decls: &Decls,
    items: Vec<(u32, Term)>,
) -> Result<Vec<Terms>, AllocError>
    requires { IsTrue (are_items decls.now (items_seen items.items)) }
    ensures { IfOk result
        (λ lists. map all_seen lists.items ≡ first_lists decls.now (items_seen items.items)) }
{
    let unsorted = sorted_out(alloc, decls, items)?;
    let lists = put_in_order(alloc, decls, unsorted)?;
    Ok(lists)
}

// So many lists without a term.
fn no_terms(alloc: Global, count: usize) -> Result<Vec<Vec<ValidTerm>>, AllocError>
    ensures { IfOk result (λ lists. all_trees lists.items ≡ replicate count []) }
{
    let mut lists = Vec::new(alloc);
    for _place in 0..count {
        lists.push(Vec::new(alloc))?;
    }
    Ok(lists)
}

// Puts a term at the end of the list at a place.
fn put(lists: &mut [Vec<ValidTerm>], place: usize, term: ValidTerm) -> Result<(), AllocError>
    requires { place < length lists.old }
    ensures { OnOk result
        (all_trees lists.new ≡ with_term (all_trees lists.old) place (seen term.term)) }
{
    lists[place].push(term)?;
    Ok(())
}

// A list for each declaration, with its terms in the order of the items.
fn sorted_out(
    alloc: Global,
    decls: &Decls,
    items: Vec<(u32, Term)>,
) -> Result<Vec<Vec<ValidTerm>>, AllocError>
    requires { IsTrue (are_items decls.now (items_seen items.items)) }
    ensures { IfOk result
        (λ lists. all_trees lists.items ≡ gathered 0 decls.now (items_seen items.items)) }
{
    let mut lists = no_terms(alloc, decls.len())?;
    for (place, term) in items {
        put(&mut lists, place as usize, ValidTerm::new(term))?;
    }
    Ok(lists)
}

// The terms of a declaration as its first list has them. It takes no memory.
fn first_list(decl: &Decl, terms: Vec<ValidTerm>) -> Vec<ValidTerm>
    requires { decl.now.kind ≡ Relation →
        All (λ t. size t ≡ decl.now.pred.arity) (trees terms.items) }
    ensures { trees result.items ≡ first_list decl.now.kind decl.now.keys (trees terms.items) }
{
    match decl.kind {
        Kind::Relation => in_key_order(decl, terms),
        Kind::Clauses => terms,
    }
}

// The same terms in a list.
fn terms_of(alloc: Global, terms: Vec<ValidTerm>) -> Result<Terms, AllocError>
    ensures { IfOk result (λ list. all_seen list ≡ trees terms.items) }
{
    let mut list = Vec::new(alloc);
    for valid in terms {
        let ValidTerm { term, .. } = valid;
        list.push(term)?;
    }
    Ok(Terms::from_vec(list))
}

// The lists of declarations as the first lists have them.
fn put_in_order(
    alloc: Global,
    decls: &Decls,
    lists: Vec<Vec<ValidTerm>>,
) -> Result<Vec<Terms>, AllocError>
    requires { AreSized decls.now (all_trees lists.items) }
    ensures { IfOk result
        (λ ordered. map all_seen ordered.items ≡ in_order decls.now (all_trees lists.items)) }
{
    let mut ordered = Vec::new(alloc);
    for terms in lists {
        let sorted = first_list(decls.at(ordered.len()), terms);
        let list = terms_of(alloc, sorted)?;
        ordered.push(list)?;
    }
    Ok(ordered)
}
