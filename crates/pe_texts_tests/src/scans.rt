//! Texts with what they show before their grammar is tried, worked out by hand: `ok` and how many tokens there are, or the
//! refusal with its place and word.

use pe_text::{Lang, ReadFault, Which, scan};
use std::alloc::Global;
use std::process::Abort;
use std::test::Fail;

type Row = (Lang, &'static [u8], &'static str);

static ROWS: [Row; 61] = [
    // Verilog: words of one of the two languages
    (Lang::Rtl, b"module m; endmodule", "ok 4"),
    (Lang::Rtl, b"a inout b", "unsupported 2 inout"),
    (Lang::Netlist, b"a inout b", "ok 3"),
    (Lang::Netlist, b"always a", "unsupported 0 always"),
    (Lang::Rtl, b"always a", "ok 2"),
    (Lang::Netlist, b"w casez casex", "unsupported 2 casez"),
    (Lang::Rtl, b"w casez casex", "unsupported 8 casex"),
    (
        Lang::Rtl,
        b"notif1x \\notif1 notif1",
        "unsupported 16 notif1",
    ),
    // marks
    (Lang::Rtl, b"a * b", "unsupported 2 *"),
    (Lang::Rtl, b"always @* b", "ok 4"),
    (Lang::Rtl, b"always @ ( * ) b", "ok 6"),
    (Lang::Rtl, b"@ ( ( * ) )", "unsupported 6 *"),
    (Lang::Rtl, b"a @ b *", "unsupported 6 *"),
    (Lang::Rtl, b"a ** b", "unsupported 2 **"),
    (Lang::Rtl, b"a === b", "unsupported 2 ==="),
    (Lang::Rtl, b"a[3+:2]", "unsupported 3 +:"),
    (Lang::Rtl, b"a / b % c", "unsupported 2 /"),
    (Lang::Rtl, b"`define A", "unsupported 0 `define"),
    // numbers with a sign
    (Lang::Rtl, b"a 4'Sb1 signed", "unsupported 2 4'Sb1"),
    (Lang::Netlist, b"'sd1", "unsupported 0 'sd1"),
    // a bad token goes first, then a word that is left out, then a number over its limit
    (Lang::Rtl, b"signed $", "syntax 7"),
    (Lang::Rtl, b"129'd0 signed", "unsupported 7 signed"),
    // widths
    (Lang::Rtl, b"128'd0", "ok 1"),
    (Lang::Rtl, b"a 129'd0", "limit 2 width"),
    (Lang::Rtl, b"0_0128'd0 1_29'h0", "limit 10 width"),
    (Lang::Rtl, b"99999999999999999999999999'b0", "limit 0 width"),
    (Lang::Rtl, b"999", "ok 1"),
    (Lang::Rtl, b"'h999", "ok 1"),
    // UPF: commands and options
    (Lang::Upf, b"set_design_top $t", "unsupported 15 $"),
    (Lang::Upf, b"a {$b}", "unsupported 3 $"),
    (Lang::Upf, b"a \"$b\"", "ok 2"),
    (Lang::Upf, b"a [b]", "unsupported 2 ["),
    (Lang::Upf, b"a {[b]}", "ok 4"),
    (
        Lang::Upf,
        b"upf_version 1; source f",
        "unsupported 15 source",
    ),
    (Lang::Upf, b"a source", "ok 2"),
    (Lang::Upf, b"\"source\" f", "ok 2"),
    (
        Lang::Upf,
        b"add_power_state P",
        "unsupported 0 add_power_state",
    ),
    (Lang::Upf, b"x -scope", "unsupported 2 -scope"),
    (Lang::Upf, b"-scope x", "ok 2"),
    (Lang::Upf, b"x {-scope}", "ok 4"),
    (
        Lang::Upf,
        b"map_power_switch -scope\nx -sink",
        "unsupported 26 -sink",
    ),
    (
        Lang::Upf,
        b"create_power_switch w -on_state {a} -off_state {b} -off_state {c}",
        "ok 14",
    ),
    (
        Lang::Upf,
        b"create_power_switch w -on_state {a} -on_state {b}",
        "unsupported 36 -on_state",
    ),
    (
        Lang::Upf,
        b"create_power_switch w -input_supply_port {a} -input_supply_port {b}",
        "unsupported 45 -input_supply_port",
    ),
    (Lang::Upf, b"x -on_state a -on_state b", "ok 5"),
    // names of an expression
    (
        Lang::Upf,
        b"create_power_switch w -on_state {s p {a & b|c^d[1] & !e&f&g&h&i&j&a&1'b0}}",
        "ok 14",
    ),
    (
        Lang::Upf,
        b"create_power_switch w -on_state {s p {a b c d e f g h i j k}}",
        "limit 37 inputs",
    ),
    (
        Lang::Upf,
        b"create_power_switch w -off_state {s {a&b&c&d&e&f&g&h&i&j} {k}}",
        "ok 12",
    ),
    (
        Lang::Upf,
        b"create_power_switch w -off_state {s {a b {c d e f g h i} j k}}",
        "limit 36 inputs",
    ),
    (
        Lang::Upf,
        b"create_power_switch w -control_port {s {a b c d e f g h i j k}}",
        "ok 19",
    ),
    (
        Lang::Upf,
        b"x -on_state {s {a b c d e f g h i j k}}",
        "ok 18",
    ),
    // nesting
    (Lang::Liberty, b"a ( b { c ) }", "ok 7"),
    (Lang::Liberty, b"signed $ * /", "ok 4"),
    (Lang::Map, b"source $ [ 129'd0", "ok 4"),
    (Lang::Liberty, b"a \"b", "syntax 2"),
    (Lang::Liberty, b"", "ok 0"),
    (Lang::Upf, b"", "ok 0"),
    (Lang::Rtl, b"", "ok 0"),
    (Lang::Map, b"a # b", "ok 1"),
    (
        Lang::Rtl,
        b"if (a) x = b ? c : d; else if (e) y = f;",
        "ok 21",
    ),
    (Lang::Netlist, b"if (a)", "unsupported 0 if"),
];

fn number(which: Which) -> &'static str {
    match which {
        Which::File => "file",
        Which::Nesting => "nesting",
        Which::Width => "width",
        Which::Inputs => "inputs",
    }
}

/// What `scan` answers, as the rows write it.
fn answered(alloc: Global, lang: Lang, text: &[u8]) -> Result<String, Fail> {
    match scan(alloc, lang, text) {
        Ok(tokens) => Ok(format!(in alloc; "ok {}", tokens.len())?),
        Err(ReadFault::Syntax { at }) => Ok(format!(in alloc; "syntax {at}")?),
        Err(ReadFault::Limit { at, which }) => {
            Ok(format!(in alloc; "limit {at} {}", number(which))?)
        }
        Err(ReadFault::Unsupported { at, word }) => {
            let mut line = format!(in alloc; "unsupported {at} ")?;
            for byte in word.bytes() {
                line.push(char::from(*byte))?;
            }
            Ok(line)
        }
        Err(fault) => Err(fault)?,
    }
}

/// So many times the piece, behind a front.
fn repeated(alloc: Global, front: &[u8], piece: &[u8], count: usize) -> Result<Vec<u8>, Fail> {
    let mut text = Vec::from_slice(alloc, front)?;
    for _ in 0..count {
        text.extend_from_slice(piece)?;
    }
    Ok(text)
}

fn expect(
    rt: &impl Abort,
    alloc: Global,
    lang: Lang,
    text: &[u8],
    wanted: &str,
) -> Result<(), Fail> {
    let line = answered(alloc, lang, text)?;
    assert_eq!(rt; line.as_str(), wanted);
    Ok(())
}

#[test]
fn words_and_numbers(rt: HostRuntime) -> Result<(), Fail> {
    for row in &ROWS {
        expect(&rt, rt.alloc(), row.0, row.1, row.2)?;
    }
    Ok(())
}

type Nested = (Lang, &'static [u8], &'static [u8], usize, &'static str);

// How often a piece stands behind a front.
static NESTED: [Nested; 16] = [
    (
        Lang::Rtl,
        b"module top(input a, output y); assign y = ",
        b"(",
        65,
        "limit 106 nesting",
    ),
    (
        Lang::Rtl,
        b"module top(input a, output y); assign y = ",
        b"(",
        64,
        "ok 77",
    ),
    (Lang::Netlist, b"", b"[", 65, "limit 64 nesting"),
    (Lang::Rtl, b"", b"begin ", 65, "limit 384 nesting"),
    (Lang::Rtl, b"", b"begin end ", 65, "ok 130"),
    (Lang::Rtl, b"", b"~", 65, "ok 65"),
    (Lang::Rtl, b"", b"~", 66, "limit 65 nesting"),
    (Lang::Rtl, b"", b"if ", 65, "limit 192 nesting"),
    (Lang::Rtl, b"", b"else if ", 65, "ok 130"),
    (Lang::Rtl, b"", b"? ; ", 65, "ok 130"),
    (Lang::Rtl, b"", b"?", 65, "limit 64 nesting"),
    (Lang::Liberty, b"", b"({", 33, "limit 64 nesting"),
    (Lang::Liberty, b"", b"(}", 99, "ok 198"),
    (Lang::Upf, b"", b"{", 65, "limit 64 nesting"),
    (Lang::Upf, b"", b"(", 65, "ok 1"),
    (Lang::Map, b"", b"( { ", 65, "ok 130"),
];

#[test]
fn nesting(rt: HostRuntime) -> Result<(), Fail> {
    let alloc = rt.alloc();
    for row in &NESTED {
        let text = repeated(alloc, row.1, row.2, row.3)?;
        expect(&rt, alloc, row.0, &text, row.4)?;
    }
    Ok(())
}

#[test]
fn a_text_over_the_limit(rt: HostRuntime) -> Result<(), Fail> {
    let alloc = rt.alloc();
    let text = vec![in alloc; b'a'; 16_777_217]?;
    expect(&rt, alloc, Lang::Rtl, &text, "limit 16777216 file")?;
    expect(&rt, alloc, Lang::Map, &text[1..], "ok 1")
}
