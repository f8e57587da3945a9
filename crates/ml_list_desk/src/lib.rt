//! The desk over plain lists: it answers the operations of one session at a time, over lists that
//! it owns. It stands on the trait of desks in ml_desk, and on the operations and replays of
//! ml_search. The layers above make a `ListDesk` of terms or of items, ask it as any desk, and take
//! the lists back. Its type keeps that its replies are those that the definitions give over the
//! lists it was made of.
#![tactic(auto)]

mod changes;
mod list_cursor;
mod list_desk;
mod list_item;
mod operations;
mod outcome;
mod plain_list;
mod replies;
#[cfg(test)]
mod tests;

pub use list_desk::ListDesk;
pub use list_item::{ListItem, ListItems, Place};
