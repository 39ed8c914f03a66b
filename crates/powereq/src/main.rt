//! The program `powereq`: its words, the files of the system and standard output, handed to the top call.
#![tactic(auto)]

use pe_outside::{RealFiles, RealSink};
use pe_tool::run_alone;
use std::process::ExitCode;
use std::thread::Builder;
use std::{env, io};

// The stack of the thread that does the check, in bytes: the first of these that the system gives. Readers descend as a text
// is nested. All nesting is bounded by a limit but that of `else if`, whose longest chain takes some 6 GiB. Of the stack only
// what is used takes memory.
const STACKS: [usize; 3] = [0x2_0000_0000, 0x4000_0000, 0x400_0000];

// The words behind the program's name.
fn words(rt: &HostRuntime) -> io::Result<Vec<String>> {
    let mut words = Vec::new(rt.alloc());
    for word in env::args(rt)?.skip(1) {
        words.push(word)?;
    }
    Ok(words)
}

// What the top call answers to the program's words.
fn run(rt: HostRuntime) -> u8 {
    match words(&rt) {
        Ok(words) => {
            let mut files = RealFiles::new(&rt);
            let mut out = RealSink::new(&rt);
            run_alone(rt.alloc(), words.as_slice(), &mut files, &mut out)
        }
        // The words could not be had: want of memory.
        Err(_) => 7,
    }
}

fn main(rt: HostRuntime) -> ExitCode {
    for stack in STACKS {
        if let Ok(thread) = Builder::new().stack_size(stack).spawn(&rt, move || run(rt)) {
            return ExitCode::from(thread.join(&rt));
        }
    }
    // No thread could be had.
    ExitCode::from(run(rt))
}
