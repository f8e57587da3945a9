//! The entries of scripts, one after another: each session runs over plain lists, as the one before
//! it left them. It stands on ml_loading for the first lists, on ml_session, which runs a session
//! over the desk of ml_list_desk, on the laws of ml_isolation, and on ml_writer for the lines of
//! entries. The layer above uses `blocks_of`. What carries it: between two sessions the lists are
//! those of the declarations, and each item was loaded or committed by an earlier entry (`AreLists`
//! in `specs/Entries.antt`).
#![tactic(auto)]

mod entries;
mod items;
mod line_bytes;
mod session;

pub use entries::blocks_of;
