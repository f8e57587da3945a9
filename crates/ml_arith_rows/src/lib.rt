//! Expressions through their bytes: what they come to on a heap. It stands on ml_reader and
//! ml_arith, which don't know one another, and has tests alone.
#![tactic(auto)]

#[cfg(test)]
mod expression_rows;
