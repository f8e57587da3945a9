//! The law of canonical text: what is written of a term is read back as this term.
//!
//! It stands on ml_term, whose definition of canonical text writes a term, and on ml_token and
//! ml_reader, whose definitions read a text. It has no code of its own: the functions do nothing,
//! and their contracts are the law and worked rows. The proof never runs the parser. It builds the
//! tokens of the text by recursion on the tree, and then the derivation of these tokens. What
//! carries it: each name of canonical text stands before a byte that ends it, and each term before
//! a token that closes, so that no operator is one there.
#![tactic(auto)]

pub mod text_laws;
pub mod worked_rows;
