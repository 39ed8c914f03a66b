//! Tests of the graph and of operators on two rails, worked out by hand.
#![tactic(auto)]

#[cfg(test)]
mod graph;
#[cfg(test)]
mod operators;
