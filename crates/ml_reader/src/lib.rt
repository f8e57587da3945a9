//! Reads texts of clauses, rules and scripts: which terms the tokens of a text spell, which program
//! or script its clauses are, and where a text goes wrong first.
//!
//! It stands on ml_token, which cuts a text into its tokens, on ml_term, whose trees the grammar
//! derives, and on ml_search, whose programs and scripts it reads. `parser` reads clauses,
//! `rules` the program and the items that clauses are, and `script` the script that they are, each
//! with a folder of its own here and in specs/inside; the same folders of proofs/ are Parsing,
//! RuleReading and ScriptReading. `specs/Grammar.antt` is the language as derivations by priority,
//! `specs/inside/parser/Parser.antt` an automaton that takes one token at a time. The law that
//! carries it: the automaton stops exactly at the first token with which no text of the grammar
//! goes on.
#![tactic(auto)]

mod clauses;
mod fault;
pub mod grammar_laws;
pub mod grammar_rows;
mod limits;
mod parser;
mod rules;
pub mod rules_laws;
mod script;
pub mod script_laws;
pub mod script_rows;
#[cfg(test)]
mod tests;

pub use clauses::read_clauses;
pub use fault::{ReadFault, ReadKind, ReadStop};
pub use limits::{MAX_CLAUSE_TOKENS, MAX_TEXT_LEVELS};
pub use parser::lexeme::{Names, Read};
pub use rules::Rules;
pub use rules::items::Items;
pub use rules::rules_file::read_rules;
pub use script::read_script;
