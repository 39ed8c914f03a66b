//! Map files with their lines, or with their refusals, worked out by hand.

use super::*;
use pe_base::Name;
use pe_text::ReadFault;
use std::alloc::{AllocError, Global};
use std::test::Fail;

static ROWS: [(&str, &str); 37] = [
    // lines that say nothing
    ("", ""),
    ("# one\n  # two\n\n \t\n", ""),
    ("\n\n  top a b  # x\n\nclock c", "top a b|clock c|"),
    // each kind of line
    ("top a b\n", "top a b|"),
    ("top a b", "top a b|"),
    (
        "supply VDD vdd\nport p q\ntie s 0\ntie t 1\nreg a b\nreg c d inv\ndrop e\nstart ON\nstep ON OFF\nclock c\n",
        "supply VDD vdd|port p q|tie s 0|tie t 1|reg a b|reg c d inv|drop e|start ON|step ON OFF|clock c|",
    ),
    (" \t drop\ta\t", "drop a|"),
    // names that are words of the lines
    ("clock clock", "clock clock|"),
    ("top top top\nclock top", "top top top|clock top|"),
    ("tie tie 1\nstep 0 1", "tie tie 1|step 0 1|"),
    ("reg inv inv inv", "reg inv inv inv|"),
    ("reg a inv", "reg a inv|"),
    ("port reg drop # inv", "port reg drop|"),
    // comments begin in a word too
    ("port a b#c", "port a b|"),
    ("port a#b c\n", "syntax 10"),
    // CR is a byte of a word
    ("top a b\r\n", "top a b\r|"),
    // too short, at the end of the line or of the text
    ("top", "syntax 3"),
    ("top a", "syntax 5"),
    ("top a\nclock c", "syntax 5"),
    ("start", "syntax 5"),
    ("tie a # 0", "syntax 9"),
    ("supply a \nsupply a b", "syntax 9"),
    ("reg a", "syntax 5"),
    // too long
    ("top a b c", "syntax 8"),
    ("drop a b", "syntax 7"),
    ("tie n 0 1", "syntax 8"),
    ("reg a b inv inv", "syntax 12"),
    // other words
    ("foo a", "syntax 0"),
    ("inv a", "syntax 0"),
    ("Top a b", "syntax 0"),
    ("tie n 2", "syntax 6"),
    ("tie n 01", "syntax 6"),
    ("reg a b ivn", "syntax 8"),
    // lines that come once
    ("top a b\ntop a b", "syntax 8"),
    ("top a b\nclock c\ntop", "syntax 16"),
    ("clock a\nport a b\nclock a", "syntax 17"),
    ("clock a\n# clock b\nclock", "syntax 18"),
];

fn show_words(out: &mut String, word: &str, names: &[&Name]) -> Result<(), AllocError> {
    out.push_str(word)?;
    for name in names {
        out.push_str(" ")?;
        for byte in name.bytes() {
            out.push(char::from(*byte))?;
        }
    }
    Ok(())
}

fn show(out: &mut String, line: &MapLine) -> Result<(), AllocError> {
    match line {
        MapLine::Top(rtl, net) => show_words(out, "top", &[rtl, net])?,
        MapLine::Clock(port) => show_words(out, "clock", &[port])?,
        MapLine::Supply(net, root) => show_words(out, "supply", &[net, root])?,
        MapLine::Port(rtl, net) => show_words(out, "port", &[rtl, net])?,
        MapLine::Tie(input, value) => {
            show_words(out, "tie", &[input])?;
            out.push_str(if *value { " 1" } else { " 0" })?;
        }
        MapLine::Reg { rtl, net, inv } => {
            show_words(out, "reg", &[rtl, net])?;
            out.push_str(if *inv { " inv" } else { "" })?;
        }
        MapLine::Drop(register) => show_words(out, "drop", &[register])?,
        MapLine::Start(row) => show_words(out, "start", &[row])?,
        MapLine::Step(from, to) => show_words(out, "step", &[from, to])?,
    }
    out.push_str("|")
}

/// What is answered, as the rows write it.
fn answered(alloc: Global, text: &[u8]) -> Result<String, Fail> {
    match read_map(alloc, text) {
        Ok(map) => {
            let mut out = String::new(alloc);
            for line in map.lines.as_slice() {
                show(&mut out, line)?;
            }
            Ok(out)
        }
        Err(ReadFault::Syntax { at }) => Ok(format!(in alloc; "syntax {at}")?),
        Err(fault) => Err(fault)?,
    }
}

#[test]
fn lines_and_refusals(rt: HostRuntime) -> Result<(), Fail> {
    for row in &ROWS {
        let line = answered(rt.alloc(), row.0.as_bytes())?;
        assert_eq!(rt; line.as_str(), row.1, "{}", row.0);
    }
    Ok(())
}
