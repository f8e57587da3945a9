//! Histories that plain lists explain: what a core keeps that runs sessions side by side, and why
//! that makes its history the definition's, with its print and its order. It stands on the laws of
//! lists and logs of ml_isolation, on the sealed sessions of ml_desk, and on the histories of
//! ml_search, and has no code: its functions do nothing, and their contracts are the laws. The
//! layer above may use all of them. Nothing here knows a lock, a key or a region.
#![tactic(auto)]

pub mod histories;
pub mod keeping;
pub mod rows;
