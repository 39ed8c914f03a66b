//! The ground that every other crate stands on: values of bits, names, places in a text and steps.
#![tactic(auto)]

mod name;
mod name_set;
mod register;
mod text;
mod value;
pub mod words;

pub use name::{Name, has_name, place_of};
pub use name_set::{NameSet, all_among, are_distinct};
pub use register::{RegisterInputs, isolated, kept, next_main, next_shadow, visible};
pub use text::{Span, Step, Texts, Want};
pub use value::{Val, and, exact_law, known, merge, merge_law, not, or, pick, refines, xnor, xor};

#[cfg(test)]
mod tests;
