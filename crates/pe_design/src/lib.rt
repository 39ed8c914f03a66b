//! A design: an RTL module under its power intent, and the netlist that is compared with it.
#![tactic(auto)]

mod design;

pub use design::Design;
