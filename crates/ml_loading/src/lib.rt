//! The lists with which a run begins, from items in the order of a text: a relation's tuples in the
//! order of their keys, each once, and clauses as they are given. It stands on the terms of
//! ml_term, and on ml_search for what first lists are. The layer above uses `first_lists`. What
//! carries it: items are first sorted out by their declarations, and then each relation is sorted
//! alone, so the time is linear but for the sorts.
#![tactic(auto)]

mod key_order;
mod loading;
#[cfg(test)]
mod tests;
mod valid_term;

pub use loading::first_lists;
