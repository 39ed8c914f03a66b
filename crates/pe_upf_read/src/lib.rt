//! Power intent in UPF (IEEE 1801): which tree a text spells, and where a text that spells none goes wrong.
#![tactic(auto)]

mod build;
mod intent;
mod names;
mod options;
mod parts;
mod reading;
mod table;
mod terminals;

pub use intent::{Command, Flow, Intent, Sense, Side};
pub use reading::{function_law, needed_options, one_upf, read_upf};
