//! Compares an RTL module under its UPF power intent with a netlist of Liberty cells.
#![tactic(auto)]

mod check;
mod read;
mod refusals;
mod report;
mod run;
mod words;

pub use check::{Plain, check_alone};
pub use pe_front::{CheckFault, Fault, Part};
pub use pe_questions::{Answer, Point, Question};
pub use run::run_alone;
