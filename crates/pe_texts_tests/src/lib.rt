//! Tests of the readers: texts with their tokens, trees and refusals, worked out by hand.
#![tactic(auto)]

#[cfg(test)]
mod functions;
#[cfg(test)]
mod liberty;
#[cfg(test)]
mod scans;
#[cfg(test)]
mod tokens;
#[cfg(test)]
mod upf;
#[cfg(test)]
mod verilog;
