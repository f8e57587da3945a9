//! Files through their public calls: tuples, clauses and stores, over many regions and through long
//! runs. It has tests alone; they stand here since they fill files.
#![tactic(auto)]

#[cfg(test)]
mod clauses;
#[cfg(test)]
mod drawn;
#[cfg(test)]
mod regions;
#[cfg(test)]
mod stores;
#[cfg(test)]
mod terms;
#[cfg(test)]
mod tuples;
