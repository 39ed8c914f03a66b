//! Tests of the Verilog reader: texts with their trees, worked out by hand.
#![tactic(auto)]

#[cfg(test)]
mod show_expression;
#[cfg(test)]
mod show_module;
#[cfg(test)]
mod statements;
#[cfg(test)]
mod trees;
