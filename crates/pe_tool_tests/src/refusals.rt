//! Refusals, and which of them comes first.

use crate::running::{AND, FILES, LIB, OR, RTL, UPF, WORDS, run_on};
use pe_base::{Texts, Val};
use pe_tool::{Answer, check_alone};
use sqlite_items::Items;
use std::test::Fail;

const WIDE: &str =
    "module top(input a1, input a2, input a3, input a4, input a5, input a6, input a7, input a8, input a9, input a10, input a11, input a12, input a13, input a14, input a15, output y); assign y = a1; endmodule";

const WIDE_NET: &str =
    "module top(input a1, input a2, input a3, input a4, input a5, input a6, input a7, input a8, input a9, input a10, input a11, input a12, input a13, input a14, input a15, output y, input VDD, input VSS); AND2 u1 (.A(a1), .B(a1), .Y(y), .VDD(VDD), .VSS(VSS)); endmodule";

// The lines behind the domain's primary nets.
macro_rules! upf {
    ($($line:literal),+) => {
        concat!(
            "set_design_top top\n",
            "create_supply_port VDD -direction in\n",
            "create_supply_port VSS -direction in\n",
            "create_supply_net VDD\n",
            "create_supply_net VSS\n",
            "connect_supply_net VDD -ports VDD\n",
            "connect_supply_net VSS -ports VSS\n",
            $($line, "\n"),+
        )
    };
}

const NO_TABLE: &str = upf!(
    "create_power_domain PD -include_scope",
    "set_domain_supply_net PD -primary_power_net VDD -primary_ground_net VSS"
);

const TWO_DOMAINS: &str = upf!(
    "create_power_domain PD -include_scope",
    "create_power_domain PE -include_scope",
    "set_domain_supply_net PD -primary_power_net VDD -primary_ground_net VSS"
);

const NO_PRIMARY: &str = upf!(
    "create_power_domain PD -include_scope",
    "set_domain_supply_net PE -primary_power_net VDD -primary_ground_net VSS"
);

const ISOLATED: &str = upf!(
    "create_power_domain PD -include_scope",
    "set_domain_supply_net PD -primary_power_net VDD -primary_ground_net VSS",
    "set_isolation I -domain PD -applies_to outputs -clamp_value 0 -isolation_signal iso -isolation_sense high -isolation_supply_set S -location self"
);

#[test]
fn refuses_the_first(rt: HostRuntime) -> Result<(), Fail> {
    let lines = [
        "refused: rtl syntax 0\n",
        "refused: upf syntax 0\n",
        "refused: lib syntax 0\n",
        "refused: net syntax 0\n",
        "refused: map syntax 0\n",
    ];
    // From its place on each text is of no language.
    let mut bad = [")"; 5];
    for i in 0..5 {
        let mut one_bad = FILES;
        one_bad[i] = ")";
        let (status, out) = run_on(rt.alloc(), &WORDS, &one_bad, &[])?;
        assert_eq!(rt; status, 3, "at {i}");
        assert_eq!(rt; out.written(), lines[i].as_bytes(), "at {i}");
        let (status, out) = run_on(rt.alloc(), &WORDS, &bad, &[])?;
        assert_eq!(rt; status, 3, "at {i}");
        assert_eq!(rt; out.written(), lines[i].as_bytes(), "at {i}");
        bad[i] = FILES[i];
    }
    Ok(())
}

#[test]
fn refuses_what_is_not_built(rt: HostRuntime) -> Result<(), Fail> {
    let xor = "module top(input a, input b, output y); assign y = a ^ b; endmodule";
    let later =
        "module top(input a, input b, output y, input VDD, input VSS); wire n; AND2 u1 (.A(n), .B(b), .Y(y), .VDD(VDD), .VSS(VSS)); INV u2 (.A(a), .Y(n), .VDD(VDD), .VSS(VSS)); endmodule";
    let other =
        "module other(input a, input b, output y, input VDD, input VSS); AND2 u1 (.A(a), .B(b), .Y(y), .VDD(VDD), .VSS(VSS)); endmodule";
    let no_port =
        "module top(input a, input b, output y, input VDD); AND2 u1 (.A(a), .B(b), .Y(y), .VDD(VDD), .VSS(VDD)); endmodule";
    let on_input =
        "module top(input a, input b, output y, input VDD, input VSS); AND2 u1 (.A(a), .B(b), .Y(y), .VDD(a), .VSS(VSS)); endmodule";
    let by_place =
        "module top(input a, input b, output y, input VDD, input VSS); AND2 u1 (a, b, y, VDD, VSS); endmodule";
    let cases = [
        ([xor, UPF, LIB, AND, ""], "refused: rtl not built\n"),
        ([RTL, TWO_DOMAINS, LIB, AND, ""], "refused: upf not built\n"),
        ([RTL, NO_PRIMARY, LIB, AND, ""], "refused: upf not built\n"),
        ([RTL, ISOLATED, LIB, AND, ""], "refused: upf not built\n"),
        ([RTL, UPF, LIB, by_place, ""], "refused: net not built\n"),
        (
            [RTL, UPF, LIB, AND, "clock clk"],
            "refused: map not built\n",
        ),
        ([RTL, UPF, LIB, later, ""], "refused: net not built\n"),
        ([RTL, UPF, LIB, other, ""], "refused: net not built\n"),
        ([RTL, UPF, LIB, no_port, ""], "refused: net not built\n"),
        ([RTL, UPF, LIB, on_input, ""], "refused: net not built\n"),
        ([WIDE, UPF, LIB, WIDE_NET, ""], "refused: rtl too wide 17\n"),
        // Each comes before what the texts behind it show.
        (
            [xor, TWO_DOMAINS, ")", by_place, ")"],
            "refused: rtl not built\n",
        ),
        (
            [RTL, TWO_DOMAINS, ")", by_place, ")"],
            "refused: upf not built\n",
        ),
        ([RTL, UPF, ")", by_place, ")"], "refused: lib syntax 0\n"),
        ([RTL, UPF, LIB, by_place, ")"], "refused: net not built\n"),
        (
            [RTL, UPF, LIB, other, "clock clk"],
            "refused: map not built\n",
        ),
        ([WIDE, UPF, LIB, other, ""], "refused: net not built\n"),
    ];
    for (i, (texts, line)) in cases.iter().enumerate() {
        let (status, out) = run_on(rt.alloc(), &WORDS, texts, &[])?;
        assert_eq!(rt; status, 3, "at {i}");
        assert_eq!(rt; out.written(), line.as_bytes(), "at {i}");
    }
    Ok(())
}

#[test]
fn refuses_cells_and_supplies(rt: HostRuntime) -> Result<(), Fail> {
    let unknown =
        "module top(input a, input b, output y, input VDD, input VSS); NOR9 u1 (.A(a), .B(b), .Y(y), .VDD(VDD), .VSS(VSS)); endmodule";
    let idle =
        "module top(input a, input b, output y, input VDD, input VSS); wire n; NOR9 u1 (.A(a), .B(b), .Y(y), .VDD(VDD), .VSS(VSS)); endmodule";
    let bad_function =
        "library (l) { cell (AND2) { pg_pin (VDD) { pg_type : primary_power; } pg_pin (VSS) { pg_type : primary_ground; } pin (A) { direction : input; } pin (Y) { direction : output; function : \"A * Q\"; } } }";
    let cases = [
        ([RTL, UPF, LIB, unknown, ""], "refused: lib no cell NOR9\n"),
        // That nothing drives a net without a pin shows in the netlist alone, and so before the cells.
        ([RTL, UPF, LIB, idle, ""], "refused: net not built\n"),
        (
            [RTL, UPF, bad_function, AND, ""],
            "refused: lib expression AND2 function\n",
        ),
        ([RTL, NO_TABLE, LIB, AND, ""], "refused: upf no rows\n"),
        // The cells come before the supplies.
        (
            [RTL, NO_TABLE, LIB, unknown, ""],
            "refused: lib no cell NOR9\n",
        ),
        // A library that is cut short is wrong at its end.
        (
            [RTL, UPF, "library (p) { cell (AND2) {", AND, ""],
            "refused: lib syntax 27\n",
        ),
        ([RTL, UPF, "", AND, ""], "refused: lib syntax 0\n"),
        (
            [RTL, "set_design_top $t\n", LIB, AND, ""],
            "refused: upf unsupported 15 $\n",
        ),
    ];
    for (i, (texts, line)) in cases.iter().enumerate() {
        let (status, out) = run_on(rt.alloc(), &WORDS, texts, &[])?;
        assert_eq!(rt; status, 3, "at {i}");
        assert_eq!(rt; out.written(), line.as_bytes(), "at {i}");
    }
    Ok(())
}

#[test]
fn finds_the_first_assignment(rt: HostRuntime) -> Result<(), Fail> {
    let alloc = rt.alloc();
    let texts = Texts {
        rtl: Items::from_slice(alloc, RTL.as_bytes())?,
        upf: Items::from_slice(alloc, UPF.as_bytes())?,
        lib: Items::from_slice(alloc, LIB.as_bytes())?,
        net: Items::from_slice(alloc, OR.as_bytes())?,
        map: Items::new(alloc),
    };
    let Ok(plain) = check_alone(alloc, &texts) else {
        return Err(Fail::from("refused"));
    };
    assert_eq!(rt; plain.questions.len(), 2);
    // VDD, VSS, a and b.
    let [
        Answer::Mismatch { bits, rtl, net },
        Answer::Sample { bits: first },
    ] = plain.answers.as_slice()
    else {
        return Err(Fail::from("other answers"));
    };
    assert_eq!(rt; bits.as_slice(), [true, true, false, true].as_slice());
    assert!(rt; matches!(*rtl, Val::Zero) && matches!(*net, Val::One));
    assert_eq!(rt; first.as_slice(), [true, true, false, false].as_slice());
    Ok(())
}
