//! RTL modules of one-bit assignments (IEEE 1364): which trees are of that form, what they mean, and their values.
#![tactic(auto)]

mod assign;
mod form;
mod logic;
mod names;
mod settling;

pub use assign::{is_plain_port, wire_of};
pub use form::is_rtl_form;
pub use logic::is_whole;
pub use names::{input_names, nets, output_names, port_names};
pub use settling::{rtl_settled_law, settle};
