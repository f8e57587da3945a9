//! The desk over plain lists through its public calls: what it replies to the operations of a
//! session, one after another. It has tests alone.
#![tactic(auto)]

#[cfg(test)]
mod asked;
#[cfg(test)]
mod clauses;
#[cfg(test)]
mod log;
#[cfg(test)]
mod terms;
#[cfg(test)]
mod tuples;
