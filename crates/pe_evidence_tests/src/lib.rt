//! Tests of cones, of the checker of evidence and of the search.
#![tactic(auto)]

#[cfg(test)]
mod budgets;
#[cfg(test)]
mod cones;
#[cfg(test)]
mod first_samples;
#[cfg(test)]
mod pigeon_chains;
#[cfg(test)]
mod pigeons;
#[cfg(test)]
mod refutations;
#[cfg(test)]
mod searches;
#[cfg(test)]
mod words;
