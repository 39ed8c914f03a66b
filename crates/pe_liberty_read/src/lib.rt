//! Reads the text of a cell library (Liberty).
#![tactic(auto)]

mod build;
mod liberty_table;
mod reading;
mod statement;
mod terminal;
mod tree;

pub use reading::{format_law, one_liberty, read_liberty};
pub use tree::{Attr, Group};
