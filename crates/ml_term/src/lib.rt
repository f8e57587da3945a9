//! Terms and what is said of them: trees, order, unification, canonical text and bytes, codes and
//! keys, and the declarations of predicates.
//! It stands on nothing. The layers above use the tree that a term is seen as, and the definitions
//! of `specs/`, which speak of trees alone.
//! Names, arguments and declarations keep in their types what makes a term valid, save that
//! integers are in range, which is a condition of each public call that takes a term.
#![tactic(auto, using(crate::proofs::TermSizes::sizes))]

mod args;
pub mod bytes_laws;
mod canonical;
mod canonical_size;
mod code;
pub mod decimal_laws;
mod declaration;
mod key;
pub mod key_laws;
mod limits;
mod list;
mod name;
pub mod name_laws;
mod nodes;
mod order;
pub mod pattern_laws;
mod reading;
mod spelling;
mod stop;
mod tags;
mod term;
pub mod unification_laws;
mod valid;
pub mod worked_rows;

pub use args::ArgsOf;
pub use canonical::canonical_cmp;
pub use canonical_size::canonical_len_up_to;
pub use code::{code_word, counted_from_smallest};
pub use declaration::{Decl, Keys, Kind, Pred, are_keys};
pub use key::{argument_at, arguments_of, key_cmp};
pub use limits::{
    INTEGER_COUNT, INTEGER_OFFSET, MAX_ARGUMENTS, MAX_CODED_NAME_BYTES, MAX_KEYED_ARGUMENTS,
    MAX_NAME_BYTES, MAX_TERM_NODES, limits_of_terms,
};
pub use list::ListOf;
pub use name::{Name, is_name};
pub use nodes::{is_ground, nodes_up_to};
pub use order::compare;
pub use reading::from_bytes;
pub use spelling::to_bytes;
pub use stop::{BadBytes, BytesStop};
pub use tags::{ATOM_TAG, COMPOUND_TAG, INTEGER_TAG, VARIABLE_TAG};
pub use term::{Args, Term, Terms, copy_terms};
pub use valid::{is_in_range, is_valid};
