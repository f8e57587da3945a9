//! The table of locks through its public calls: grants, waits and deaths. It has tests alone.
#![tactic(auto)]

#[cfg(test)]
mod asked;
#[cfg(test)]
mod changes;
#[cfg(test)]
mod requests;
