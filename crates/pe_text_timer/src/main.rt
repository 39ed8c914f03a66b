//! Cuts a long text into tokens, for `bench/tokens` to time and to measure.
//!
//! The words are `make`, which makes the text and no more, or `cut`; the language; and how many bytes the text has at most,
//! of lines that are all alike. What it prints is how many tokens there are.
#![tactic(auto)]

use pe_text::{Class, cut};
use std::alloc::{AllocError, Global};
use std::process::ExitCode;
use std::{env, io};

// The most bytes that a text has.
const LIMIT: usize = 16_777_216;

// A line of each language.
const RTL: &[u8] = b"  assign sum_q = (first[7:0] + 8'hF0) ^ ~mask; // the carry is lost\n";

const NETLIST: &[u8] =
    b"  NAND2X1 \\core/u_12 (.A(n_104), .B(\\data[3] ), .Y(n_105), .VDD(VDD), .VSS(VSS));\n";

const UPF: &[u8] =
    b"set_isolation iso -domain PD -elements {core/q[3] core/q[2]} -clamp_value 0; # low\n";

const LIBERTY: &[u8] =
    b"    pin (Y) { direction : output; function : \"(A & B)\" ; related_power_pin : VDD\n }\n";

const MAP: &[u8] = b"reg core/state[3] core/state_reg_3_ inv # by hand\n";

// The tokens and the line of a language, by its name.
fn language(name: &str) -> Option<(Class, &'static [u8])> {
    match name {
        "rtl" => Some((Class::Verilog, RTL)),
        "netlist" => Some((Class::Verilog, NETLIST)),
        "upf" => Some((Class::Upf, UPF)),
        "liberty" => Some((Class::Liberty, LIBERTY)),
        "map" => Some((Class::Map, MAP)),
        _ => None,
    }
}

// The line, as often as the text has room for it.
fn text(alloc: Global, line: &[u8], size: usize) -> Result<Vec<u8>, AllocError> {
    let mut text = Vec::with_capacity(alloc, size)?;
    for _ in 0..size {
        if text.len() + line.len() > size {
            break;
        }
        text.extend_from_slice(line)?;
    }
    Ok(text)
}

// How many tokens the text of this language and size has.
fn count(alloc: Global, cuts: bool, name: &str, size: usize) -> Option<usize> {
    let (class, line) = language(name)?;
    let text = text(alloc, line, size).ok()?;
    if !cuts || text.len() > LIMIT {
        return Some(0);
    }
    let tokens = cut(alloc, class, text.as_slice()).ok()?;
    Some(tokens.len())
}

// The three words behind the program's name.
fn words(rt: &HostRuntime) -> io::Result<Option<(bool, String, usize)>> {
    let mut words = env::args(rt)?.skip(1);
    let (Some(what), Some(name), Some(size)) = (words.next(), words.next(), words.next()) else {
        return Ok(None);
    };
    Ok(
        size.parse()
            .ok()
            .map(|size| (what.as_str() == "cut", name, size)),
    )
}

fn main(rt: HostRuntime) -> ExitCode {
    let Ok(Some((cuts, name, size))) = words(&rt) else {
        return ExitCode::from(6);
    };
    match count(rt.alloc(), cuts, name.as_str(), size) {
        Some(count) => match println!(rt; "{count}") {
            Ok(()) => ExitCode::from(0),
            Err(_) => ExitCode::from(7),
        },
        None => ExitCode::from(7),
    }
}
