//! The machine, by its definitions and laws: the search that asks a desk for one item after
//! another, as an automaton whose choice points are lazy, and what its replies lead to. It stands
//! on ml_term and ml_search, whose table of the search it interprets. The layer above may use the
//! laws: whatever a desk told, the search over all lists that give the same replies comes to the
//! same; what is asked may be asked; and it ends over any desk. The machine's code is to have as
//! its invariant that the desk's replies led from the goal to where it stands.
#![tactic(auto)]

pub mod laws;
pub mod rows;
pub mod turns;
