//! What sessions that lock prefixes look up in a file, and what files' changes are on the plain
//! list of any part of their items.
//! It stands on files (`ml_file`), homes of keys (`ml_home`), splits (`ml_split`) and regions
//! (`ml_region`), which it reads through the file. The layer above locks the prefixes that the
//! calls here name, and changes the file by the calls of `ml_file`.
//! What carries it: a prefix is the home of a key, and the region that owns the key has it.
#![tactic(auto)]

mod homes;
pub mod laws;
pub mod list_laws;
mod next;
mod patterns;
mod splits;
#[cfg(test)]
mod tests;

pub use homes::{Look, home, look_up};
pub use next::next_after;
pub use patterns::needed;
pub use splits::would_split;
