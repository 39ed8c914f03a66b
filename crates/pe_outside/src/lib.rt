//! The world outside: files that are read and an output that is written, as traits whose faults are counted.
#![tactic(auto)]

mod files;
mod memory;
mod real;
mod sink;
mod whole;

pub use files::{Failed, Files};
pub use memory::{MemFiles, MemSink};
pub use real::{RealFiles, RealSink};
pub use sink::{Sink, write_all};
pub use whole::{WholeFault, read_whole};

#[cfg(test)]
mod tests;
