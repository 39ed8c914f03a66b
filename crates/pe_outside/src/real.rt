//! The files of the system and its standard output. They tell nothing, and count their faults.

ghost use Rattle.std.specs.Prelude.{◌≡◌, ◌≤◌, ℕ, List, None, length, IfOk};

use crate::files::{Failed, Files};
use crate::sink::Sink;
use std::io::{self, Read, Seek, SeekFrom};
use std::{fs, rt};

/// The files of the system. Each read opens its file anew. Each error is a fault, as of a file that is absent.
#[derive(Drop)]
pub struct RealFiles<'a, R> {
    runtime: &'a R,
    faults: u64,
}

impl<'a, R: rt::Files> RealFiles<'a, R> {
    /// The files that `runtime` reaches, with no fault counted.
    pub fn new(runtime: &'a R) -> RealFiles<'a, R>
        ensures { (name : List ℕ) → ⟦<RealFiles<'a, R> as Files>⟧.faults result name ≡ 0 }
    {
        RealFiles { runtime, faults: 0 }
    }
}

/// Opens the file, goes to the place and reads once.
fn read_file<R: rt::Files>(runtime: &R, name: &str, at: u64, into: &mut [u8]) -> io::Result<usize>
    ensures { IfOk result (λ placed. placed ≤ length into.old) }
{
    let mut file = fs::open(runtime, name)?;
    file.seek(SeekFrom::Start(at))?;
    file.read(into)
}

impl<R: rt::Files> Files for RealFiles<'_, R> {
    ghost told = { λ _ _. None };

    ghost faults = { λ files _. files.faults };

    fn read_at(&mut self, name: &str, at: u64, into: &mut [u8]) -> Result<usize, Failed> {
        match read_file(self.runtime, name, at, into) {
            Ok(placed) => Ok(placed),
            Err(_) => {
                self.faults = self.faults.saturating_add(1);
                Err(Failed)
            }
        }
    }
}

/// The standard output. Each error is a fault, and so is a write that takes no byte.
#[derive(Drop)]
pub struct RealSink<'a, R> {
    runtime: &'a R,
    faults: u64,
}

impl<'a, R: Print> RealSink<'a, R> {
    /// The output that `runtime` reaches, with no fault counted.
    pub fn new(runtime: &'a R) -> RealSink<'a, R>
        ensures { ⟦<RealSink<'a, R> as Sink>⟧.faults result ≡ 0 }
    {
        RealSink { runtime, faults: 0 }
    }
}

impl<R: Print> Sink for RealSink<'_, R> {
    ghost written = { λ _. None };

    ghost faults = { λ sink. sink.faults };

    fn write(&mut self, bytes: &[u8]) -> Result<usize, Failed> {
        match self.runtime.write_some(bytes) {
            Ok(taken) if taken > 0 => Ok(taken),
            _ => {
                self.faults = self.faults.saturating_add(1);
                Err(Failed)
            }
        }
    }
}
