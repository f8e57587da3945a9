//! Whole runs of one script from their texts: what is printed is compared with worked prints. It
//! stands on ml_run, and on ml_outside for files and output in memory, and has tests alone.
#![tactic(auto)]

#[cfg(test)]
mod calls;
#[cfg(test)]
mod many;
#[cfg(test)]
mod relations;
#[cfg(test)]
mod runs;
