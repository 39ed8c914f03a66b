//! Reads a long text by a grammar, for `bench/grammar` to time and to measure.
//!
//! The words are the kind of text, and how many times what it repeats stands in it: `assignments`, a block of
//! assignments of four tokens each; `names`, one assignment of a list of names, of two tokens each; `tree`, which has the
//! tokens of `names` and makes their tree alone; and `tokens`, which has them and reads nothing.
#![tactic(auto)]

use pe_grammar::{Token, parse};
use pe_grammar_sample::{AT_STATEMENT, STATEMENT, read_statement};
use sqlite_items::Items;
use std::alloc::{AllocError, Global};
use std::process::ExitCode;
use std::{env, io};

// The terminals of the statements' grammar that the texts have.
const BEGIN: u16 = 0;

const END: u16 = 1;

const NAME: u16 = 6;

const EQUALS: u16 = 7;

const COMMA: u16 = 8;

const SEMI: u16 = 9;

// What stands first, so many times what is repeated, and what stands last.
fn text(
    alloc: Global,
    first: &[u16],
    repeated: &[u16],
    last: &[u16],
    count: u32,
) -> Result<Items<Token>, AllocError> {
    let mut tokens = Items::new(alloc);
    for kind in first {
        tokens.push(Token {
            kind: *kind,
            place: 0,
        })?;
    }
    for place in 0..count {
        for kind in repeated {
            tokens.push(Token { kind: *kind, place })?;
        }
    }
    for kind in last {
        tokens.push(Token {
            kind: *kind,
            place: count,
        })?;
    }
    Ok(tokens)
}

// The two words behind the program's name.
fn words(rt: &HostRuntime) -> io::Result<Option<(String, u32)>> {
    let mut words = env::args(rt)?.skip(1);
    let Some(kind) = words.next() else {
        return Ok(None);
    };
    let count = words.next().and_then(|word| word.parse().ok());
    Ok(count.map(|count| (kind, count)))
}

// Reads the text of this kind, and answers a status.
fn timed(alloc: Global, kind: &str, count: u32) -> u8 {
    let tokens = if kind == "assignments" {
        text(alloc, &[BEGIN], &[NAME, EQUALS, NAME, SEMI], &[END], count)
    } else {
        text(alloc, &[NAME, EQUALS, NAME], &[COMMA, NAME], &[SEMI], count)
    };
    let Ok(tokens) = tokens else {
        return 7;
    };
    let tokens = tokens.as_slice();
    let is_read = match kind {
        "tokens" => true,
        "tree" => parse(alloc, &STATEMENT, AT_STATEMENT, tokens).is_ok(),
        _ => read_statement(alloc, tokens).is_ok(),
    };
    if is_read { 0 } else { 7 }
}

fn main(rt: HostRuntime) -> ExitCode {
    match words(&rt) {
        Ok(Some((kind, count))) => ExitCode::from(timed(rt.alloc(), kind.as_str(), count)),
        _ => ExitCode::from(6),
    }
}
