//! Places in a text, steps of a run, the five texts of a check, and want of memory.

use sqlite_items::Items;
use std::alloc::{AllocError, AllocFailed};
use thiserror::Error;

/// Memory could not be had. Any call that allocates may answer it, and nothing else is said of when.
#[derive(Clone, Copy, Debug, PartialEq, Eq, Error)]
#[error("out of memory")]
pub struct Want;

impl From<AllocError> for Want {
    fn from(_error: AllocError) -> Want {
        Want
    }
}

impl<T: Drop> From<AllocFailed<T>> for Want {
    fn from(_error: AllocFailed<T>) -> Want {
        Want
    }
}

/// A part of a text: the bytes from `from` on and before `to`, counted from 0.
#[derive(Clone, Copy, Debug, PartialEq, Eq)]
pub struct Span {
    pub from: u32,
    pub to: u32,
}

/// A step that a run may take, over row numbers: its first cycle in a row, or a cycle in the second row after one in
/// the first.
#[derive(Clone, Copy, Debug, PartialEq, Eq)]
pub enum Step {
    Start(u32),
    Pair(u32, u32),
}

/// The five texts of a check, as their bytes.
#[derive(Debug, Drop)]
pub struct Texts {
    pub rtl: Items<u8>,
    pub upf: Items<u8>,
    pub lib: Items<u8>,
    pub net: Items<u8>,
    pub map: Items<u8>,
}
