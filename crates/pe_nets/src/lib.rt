//! Where names stand in a list, found without going through the list.
#![tactic(auto)]

mod index;

pub use index::NameIndex;

#[cfg(test)]
mod tests;
