//! Texts that are over a limit.

use crate::running::{AND, LIB, RTL, UPF, WORDS, run_on};
use std::alloc::Global;
use std::test::Fail;

// A text with a piece of it so many times.
fn repeated(
    alloc: Global,
    front: &str,
    piece: &str,
    times: u32,
    back: &str,
) -> Result<String, Fail> {
    let mut text = format!(in alloc; "{front}")?;
    for _ in 0..times {
        text.push_str(piece)?;
    }
    text.push_str(back)?;
    Ok(text)
}

// A UPF text with so many supplies of other names before it.
fn with_supplies(alloc: Global, count: u32) -> Result<String, Fail> {
    let mut text = format!(in alloc; "")?;
    for number in 0..count {
        let line = format!(in alloc; "create_supply_port S{number} -direction in\n")?;
        text.push_str(line.as_str())?;
    }
    text.push_str(UPF)?;
    Ok(text)
}

#[test]
fn refuses_what_is_over_a_limit(rt: HostRuntime) -> Result<(), Fail> {
    let alloc = rt.alloc();
    let module = "module top(input a, output y); assign y = ";
    let back = "a; endmodule";
    let rows = repeated(
        alloc,
        UPF,
        "add_pst_state R -pst T -state {HV GND}\n",
        64,
        "",
    )?;
    let supplies = with_supplies(alloc, 63)?;
    let nested = repeated(alloc, module, "(", 65, back)?;
    let wide = repeated(alloc, module, "129'b0", 1, "; endmodule")?;
    let cases = [
        (
            [RTL, rows.as_str(), LIB, AND, ""],
            "refused: upf too many rows 65\n",
        ),
        (
            [RTL, supplies.as_str(), LIB, AND, ""],
            "refused: upf too many supplies 65\n",
        ),
        // The 65th of the parentheses, which begin at byte 42.
        (
            [nested.as_str(), UPF, LIB, AND, ""],
            "refused: rtl limit 106 nesting\n",
        ),
        (
            [wide.as_str(), UPF, LIB, AND, ""],
            "refused: rtl limit 42 width\n",
        ),
    ];
    for (i, (texts, line)) in cases.iter().enumerate() {
        let (status, out) = run_on(alloc, &WORDS, texts, &[])?;
        assert_eq!(rt; status, 3, "at {i}");
        assert_eq!(rt; out.written(), line.as_bytes(), "at {i}");
    }
    Ok(())
}
