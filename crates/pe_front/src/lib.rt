//! From five texts to a design: what is read, what fits, and which refusal is the first.
#![tactic(auto)]

mod fault;
mod fitting;
mod front;
mod last;
mod reading;
mod views;

pub use fault::{CheckFault, Fault, Part};
pub use front::{design, one_design};
