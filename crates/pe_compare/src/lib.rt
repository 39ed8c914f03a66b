//! What belongs together in the two designs of a check.
#![tactic(auto)]

mod map;
mod map_build;
mod map_reading;
mod map_table;
mod map_terminal;

pub use map::{MapFile, MapLine};
pub use map_reading::{one_map, read_map};

#[cfg(test)]
mod map_tests;
