//! Laws of plain lists, by which a core that runs sessions side by side is to be proved: lists stay
//! lists, whatever a log of valid operations changes and wherever it is committed. It stands on
//! ml_term, ml_search and ml_asking, and has no code: its functions do nothing, and their contracts
//! are the laws. The layer above may use all of them. Nothing here knows a lock, a key or a region.
#![tactic(auto)]

pub mod apart;
pub mod lists;
pub mod logs;
pub mod notes;
pub mod rows;
