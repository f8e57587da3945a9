//! Clauses through their texts: the instructions that they are compiled to, and what a call's
//! arguments are when their heads were matched. It stands on ml_reader and ml_match, which don't
//! know one another, and has tests alone.
#![tactic(auto)]

#[cfg(test)]
mod codes;
#[cfg(test)]
mod heads;
#[cfg(test)]
mod texts;
