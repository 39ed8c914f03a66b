//! Reads a text of a language from a file, for `bench/readers` to time and to measure.
//!
//! The words are the language, `rtl`, `netlist`, `liberty`, `upf` or `map`, and the name of the file. What it prints is how
//! many modules the Verilog has, how many groups the library, how many commands the power intent or how many lines the map; or
//! why the text is refused. Status 0: the text was read. Status 1: it was refused. Status 6: the words are others. Status 7:
//! the file could not be read or no memory had.
#![tactic(auto)]

use pe_compare::read_map;
use pe_liberty_read::read_liberty;
use pe_text::{Lang, ReadFault};
use pe_upf_read::read_upf;
use pe_verilog_read::read_verilog;
use std::alloc::Global;
use std::process::ExitCode;
use std::{env, fs, io};

// The languages that are read.
#[derive(Clone, Copy)]
enum Language {
    Rtl,
    Netlist,
    Liberty,
    Upf,
    Map,
}

impl Language {
    // The language of this name.
    fn named(name: &str) -> Option<Language> {
        match name {
            "rtl" => Some(Language::Rtl),
            "netlist" => Some(Language::Netlist),
            "liberty" => Some(Language::Liberty),
            "upf" => Some(Language::Upf),
            "map" => Some(Language::Map),
            _ => None,
        }
    }
}

// How many modules, groups, commands or lines the text of this language has.
fn count(alloc: Global, language: Language, text: &[u8]) -> Result<usize, ReadFault> {
    match language {
        Language::Rtl => {
            let source = read_verilog(alloc, Lang::Rtl, text)?;
            Ok(source.modules.len())
        }
        Language::Netlist => {
            let source = read_verilog(alloc, Lang::Netlist, text)?;
            Ok(source.modules.len())
        }
        Language::Liberty => {
            let library = read_liberty(alloc, text)?;
            Ok(library.groups.len())
        }
        Language::Upf => {
            let intent = read_upf(alloc, text)?;
            Ok(intent.commands.len())
        }
        Language::Map => {
            let map = read_map(alloc, text)?;
            Ok(map.lines.len())
        }
    }
}

// The two words behind the program's name.
fn words(rt: &HostRuntime) -> io::Result<Option<(Language, String)>> {
    let mut words = env::args(rt)?.skip(1);
    let (Some(name), Some(file)) = (words.next(), words.next()) else {
        return Ok(None);
    };
    Ok(Language::named(name.as_str()).map(|language| (language, file)))
}

fn main(rt: HostRuntime) -> ExitCode {
    let Ok(Some((language, file))) = words(&rt) else {
        return ExitCode::from(6);
    };
    let Ok(text) = fs::read(&rt, file.as_str()) else {
        return ExitCode::from(7);
    };
    let printed = match count(rt.alloc(), language, text.as_slice()) {
        Ok(count) => println!(rt; "{count}").map(|()| 0),
        Err(fault) => println!(rt; "{fault}").map(|()| 1),
    };
    match printed {
        Ok(status) => ExitCode::from(status),
        Err(_) => ExitCode::from(7),
    }
}
