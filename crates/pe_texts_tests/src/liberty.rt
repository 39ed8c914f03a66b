//! Texts with the trees that they are, or with their refusals, worked out by hand.
//!
//! A group is written as its kind, the byte at which it starts, its arguments, its attributes and its groups. An attribute is
//! written as its name, the byte at which it starts, and its values.

use pe_base::Name;
use pe_liberty_read::{Group, read_liberty};
use pe_text::{ReadFault, Which};
use std::alloc::{AllocError, Global};
use std::test::Fail;

static ROWS: [(&str, &str); 47] = [
    // the whole text is one group library
    ("library (p) { cell (AND2) {", "syntax 27"),
    ("", "syntax 0"),
    ("library(p){}", "library@0[p,]{}"),
    ("library () { } ;", "library@0[]{}"),
    ("/* head */ library (p) { }", "library@11[p,]{}"),
    ("cell (p) {}", "syntax 0"),
    ("\"library\" (p) {}", "syntax 0"),
    ("library p {}", "syntax 8"),
    ("library (p) ;", "syntax 12"),
    ("library (p", "syntax 10"),
    ("library (p) {} library (q) {}", "syntax 15"),
    ("library (p) {}; ;", "syntax 16"),
    ("library (p) {} \\", "syntax 15"),
    // arguments
    (
        "library (p, q) { cell (A B) { } ; cell (\"C D\") { } }",
        "library@0[p,q,]{cell@17[A,B,]{}cell@34[C D,]{}}",
    ),
    (
        "library (p) { a (1, 2); b (3 4) c () }",
        "library@0[p,]{a@14[1,2,];b@24[3,4,];c@32[];}",
    ),
    (
        "library (p) { a (\"x, y; {z}\", w) ; }",
        "library@0[p,]{a@14[x, y; {z},w,];}",
    ),
    (
        "library(p){a:1;b(2){c:\"d\"}}",
        "library@0[p,]{a@11[1,];b@15[2,]{c@20[d,];}}",
    ),
    ("library (,p) {}", "syntax 9"),
    ("library (p) { a (1,, 2); }", "syntax 19"),
    ("library (p) { a (1,); }", "syntax 19"),
    ("library (p) { a (1; 2); }", "syntax 18"),
    // lists of values, which end with `;`, with their line, or right before `}`
    ("library (p) { area : 2; }", "library@0[p,]{area@14[2,];}"),
    ("library (p) { area : 2 }", "library@0[p,]{area@14[2,];}"),
    ("library (p) {\narea : 2\n}", "library@0[p,]{area@14[2,];}"),
    (
        "library (p) {\r\narea : 2\r\nvolt : 1 }\r\n",
        "library@0[p,]{area@15[2,];volt@25[1,];}",
    ),
    (
        "library (p) { a : 1 2 \"x y\" z; b : -1.5e-3*x; }",
        "library@0[p,]{a@14[1,2,x y,z,];b@31[-1.5e-3*x,];}",
    ),
    ("library (p) { a : \"\" ; }", "library@0[p,]{a@14[,];}"),
    ("library (p) { a : \n 1; }", "library@0[p,]{a@14[1,];}"),
    (
        "library (p) { a : 1 \\\n 2; }",
        "library@0[p,]{a@14[1,2,];}",
    ),
    (
        "library (p) { a : 1 /* c \n */ 2\nb : \"x\ny\" }",
        "library@0[p,]{a@14[1,2,];b@32[x\ny,];}",
    ),
    ("library (p) {\narea : 2\n;\n}", "syntax 23"),
    ("library (p) { a : 1; ; }", "syntax 21"),
    ("library (p) { a : ; }", "syntax 18"),
    ("library (p) { a : b , c; }", "syntax 20"),
    ("library (p) { a : 1 b : 2; }", "syntax 22"),
    ("library (p) { a : 1 cell (X) {} }", "syntax 25"),
    ("library (p) { a : 1", "syntax 19"),
    // statements
    (
        "library (p) { b : 1; c () { d : 2; } a (3); e () {} }",
        "library@0[p,]{b@14[1,];a@37[3,];c@21[]{d@28[2,];}e@44[]{}}",
    ),
    (
        "library (p) { cell (A) { a : 1 } b : 2 }",
        "library@0[p,]{b@33[2,];cell@14[A,]{a@25[1,];}}",
    ),
    (
        "library (p) { library (q) { library : library \"library\"; } }",
        "library@0[p,]{library@14[q,]{library@28[library,library,];}}",
    ),
    ("library (p) { area 2; }", "syntax 19"),
    ("library (p) { area; }", "syntax 18"),
    ("library (p) { { } }", "syntax 14"),
    ("library (p) { \"a\" : 1; }", "syntax 14"),
    ("library (p) { cell (A) { } }; }", "syntax 30"),
    // tokens that are not closed
    ("library (p) { a : \"x", "syntax 18"),
    ("library (p) { a : 1 /* x", "syntax 20"),
];

/// The library of a small design.
static CELLS: &str = "library (pe) {\n  \
    cell (INV) { pg_pin (VDD) { pg_type : primary_power; } pg_pin (VSS) { pg_type : primary_ground; } pin (A) { direction : input; } pin (Y) { direction : output; function : \"!A\"; power_down_function : \"!VDD + VSS\"; } }\n  \
    cell (BUF) { pg_pin (VDD) { pg_type : primary_power; } pg_pin (VSS) { pg_type : primary_ground; } pin (A) { direction : input; } pin (Y) { direction : output; function : \"A\"; power_down_function : \"!VDD + VSS\"; } }\n  \
    cell (AND2) { pg_pin (VDD) { pg_type : primary_power; } pg_pin (VSS) { pg_type : primary_ground; } pin (A) { direction : input; } pin (B) { direction : input; } pin (Y) { direction : output; function : \"A * B\"; power_down_function : \"!VDD + VSS\"; } }\n  \
    cell (OR2) { pg_pin (VDD) { pg_type : primary_power; } pg_pin (VSS) { pg_type : primary_ground; } pin (A) { direction : input; } pin (B) { direction : input; } pin (Y) { direction : output; function : \"A + B\"; power_down_function : \"!VDD + VSS\"; } }\n  \
    cell (XOR2) { pg_pin (VDD) { pg_type : primary_power; } pg_pin (VSS) { pg_type : primary_ground; } pin (A) { direction : input; } pin (B) { direction : input; } pin (Y) { direction : output; function : \"A ^ B\"; power_down_function : \"!VDD + VSS\"; } }\n  \
    cell (MUX2) { pg_pin (VDD) { pg_type : primary_power; } pg_pin (VSS) { pg_type : primary_ground; } pin (A) { direction : input; } pin (B) { direction : input; } pin (S) { direction : input; } pin (Y) { direction : output; function : \"A * !S + B * S\"; power_down_function : \"!VDD + VSS\"; } }\n  \
    cell (ISO) { pg_pin (VDD) { pg_type : primary_power; } pg_pin (VSS) { pg_type : primary_ground; } pin (A) { direction : input; } pin (EN) { direction : input; } pin (Y) { direction : output; function : \"A * !EN\"; power_down_function : \"!VDD + VSS\"; } }\n  \
    cell (DFF) { pg_pin (VDD) { pg_type : primary_power; } pg_pin (VSS) { pg_type : primary_ground; } ff (IQ, IQN) { next_state : \"D\"; clocked_on : \"CK\"; } pin (CK) { direction : input; } pin (D) { direction : input; } pin (Q) { direction : output; function : \"IQ\"; power_down_function : \"!VDD + VSS\"; } }\n  \
    cell (RDFFR) { retention_cell : ret; pg_pin (VDD) { pg_type : primary_power; } pg_pin (VSS) { pg_type : primary_ground; } pg_pin (VDDB) { pg_type : backup_power; } ff (IQ, IQN) { next_state : \"D\"; clocked_on : \"CK\"; clear : \"!RN\"; } pin (CK) { direction : input; } pin (D) { direction : input; } pin (RN) { direction : input; } pin (SAVE) { direction : input; retention_pin (save, \"0\"); } pin (RESTORE) { direction : input; retention_pin (restore, \"0\"); } pin (Q) { direction : output; function : \"IQ\"; power_down_function : \"!VDD + VSS\"; } }\n  \
    cell (SRDFFR) { retention_cell : ret; pg_pin (VDD) { pg_type : primary_power; } pg_pin (VSS) { pg_type : primary_ground; } pg_pin (VDDB) { pg_type : backup_power; } ff (IQ, IQN) { next_state : \"SE * SI + !SE * D\"; clocked_on : \"CK\"; clear : \"!RN\"; } pin (CK) { direction : input; } pin (D) { direction : input; } pin (SI) { direction : input; } pin (SE) { direction : input; } pin (RN) { direction : input; } pin (SAVE) { direction : input; retention_pin (save, \"0\"); } pin (RESTORE) { direction : input; retention_pin (restore, \"0\"); } pin (Q) { direction : output; function : \"IQ\"; power_down_function : \"!VDD + VSS\"; } }\n  \
    cell (SWH) { switch_cell_type : coarse_grain; pg_pin (VDDG) { pg_type : primary_power; } pg_pin (VSS) { pg_type : primary_ground; } pg_pin (VDDS) { pg_type : internal_power; direction : output; pg_function : \"VDDG\"; switch_function : \"SLEEP\"; } pin (SLEEP) { direction : input; } }\n\
    }\n";

/// The cell AND2 of the library.
const AND2: &str =
    "cell@452[AND2,]{pg_pin@466[VDD,]{pg_type@481[primary_power,];}pg_pin@508[VSS,]{pg_type@523[primary_ground,];}pin@551[A,]{direction@561[input,];}pin@582[B,]{direction@592[input,];}pin@613[Y,]{direction@623[output,];function@643[A * B,];power_down_function@663[!VDD + VSS,];}}";

fn show_bytes(out: &mut String, bytes: &[u8]) -> Result<(), AllocError> {
    for byte in bytes {
        out.push(char::from(*byte))?;
    }
    Ok(())
}

/// The first word, its place and the list behind it.
fn show_head(
    alloc: Global,
    out: &mut String,
    word: &Name,
    place: u32,
    names: &[Name],
) -> Result<(), AllocError> {
    show_bytes(out, word.bytes())?;
    let place = format!(in alloc; "@{place}[")?;
    out.push_str(place.as_str())?;
    for name in names {
        show_bytes(out, name.bytes())?;
        out.push_str(",")?;
    }
    out.push_str("]")
}

fn show(alloc: Global, out: &mut String, group: &Group) -> Result<(), AllocError> {
    show_head(alloc, out, &group.kind, group.place, group.args.as_slice())?;
    out.push_str("{")?;
    for attr in group.attrs.as_slice() {
        show_head(alloc, out, &attr.name, attr.place, attr.values.as_slice())?;
        out.push_str(";")?;
    }
    for inner in group.groups.as_slice() {
        show(alloc, out, inner)?;
    }
    out.push_str("}")
}

/// What is answered, as the rows write it.
fn answered(alloc: Global, text: &[u8]) -> Result<String, Fail> {
    match read_liberty(alloc, text) {
        Ok(group) => {
            let mut out = String::new(alloc);
            show(alloc, &mut out, &group)?;
            Ok(out)
        }
        Err(ReadFault::Syntax { at }) => Ok(format!(in alloc; "syntax {at}")?),
        Err(
            ReadFault::Limit {
                at,
                which: Which::Nesting,
            },
        ) => Ok(format!(in alloc; "nesting {at}")?),
        Err(fault) => Err(fault)?,
    }
}

#[test]
fn trees_and_refusals(rt: HostRuntime) -> Result<(), Fail> {
    for row in &ROWS {
        let line = answered(rt.alloc(), row.0.as_bytes())?;
        assert_eq!(rt; line.as_str(), row.1, "{}", row.0);
    }
    Ok(())
}

/// A library with so many groups one in another, which are not closed.
fn nested(alloc: Global, count: usize) -> Result<Vec<u8>, Fail> {
    let mut text = Vec::from_slice(alloc, b"library(p){")?;
    for _ in 0..count {
        text.extend_from_slice(b"g(){")?;
    }
    Ok(text)
}

#[test]
fn groups_one_in_another(rt: HostRuntime) -> Result<(), Fail> {
    // 64 may be open, also where one more is wrong for its syntax
    let text = nested(rt.alloc(), 63)?;
    assert_eq!(rt; answered(rt.alloc(), &text)?.as_str(), "syntax 263");
    let text = nested(rt.alloc(), 64)?;
    assert_eq!(rt; answered(rt.alloc(), &text)?.as_str(), "nesting 264");
    let mut text = nested(rt.alloc(), 63)?;
    for _ in 0..64 {
        text.push(b'}')?;
    }
    assert!(rt; read_liberty(rt.alloc(), &text).is_ok());
    Ok(())
}

#[test]
fn a_library(rt: HostRuntime) -> Result<(), Fail> {
    let library = read_liberty(rt.alloc(), CELLS.as_bytes())?;
    assert_eq!(rt; library.groups.len(), 11);
    let mut out = String::new(rt.alloc());
    if let Some(cell) = library.groups.get(2) {
        show(rt.alloc(), &mut out, cell)?;
    }
    assert_eq!(rt; out.as_str(), AND2);
    Ok(())
}
