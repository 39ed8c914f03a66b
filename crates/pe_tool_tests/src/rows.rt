//! Tables of rows: the first cycle of each row, or none.

use crate::running::{ACCEPTED, AND, FILES, LIB, MISMATCH, OR, RTL, UPF, WORDS, run_on};
use std::test::Fail;

const DARK: &str = "powereq: accepted
obligations 1 refuted 1 mismatched 0 spent 0
step start DARK live
  cycle 1
    supply VDD off
    supply VSS on
    in a 0
    in b 0
";

const ANY: &str = "powereq: accepted
obligations 3 refuted 3 mismatched 0 spent 0
step start ON1 live
  cycle 1
    supply VDD on
    supply VSS on
    in a 0
    in b 0
step start ON2 live
  cycle 1
    supply VDD on
    supply VSS on
    in a 0
    in b 0
step start ANY live
  cycle 1
    supply VDD off
    supply VSS on
    in a 0
    in b 0
";

// The states of VDD and of VSS, and the rows of a table over both, in place of the row ON.
macro_rules! rows {
    ($power:literal, $ground:literal, $($row:literal),+) => {
        concat!(
            "set_design_top top\n",
            "create_power_domain PD -elements {.}\n",
            "create_supply_port VDD -direction in\n",
            "create_supply_port VSS -direction in\n",
            "create_supply_net VDD -domain PD\n",
            "create_supply_net VSS -domain PD\n",
            "connect_supply_net VDD -ports VDD\n",
            "connect_supply_net VSS -ports VSS\n",
            "set_domain_supply_net PD -primary_power_net VDD -primary_ground_net VSS\n",
            "add_port_state VDD ",
            $power,
            "\nadd_port_state VSS ",
            $ground,
            "\n",
            "create_pst T -supplies {VDD VSS}\n",
            $("add_pst_state ", $row, "\n"),+
        )
    };
}

const DARK_ROW: &str = rows!(
    "-state {HV 1.0} -state {OFF off}",
    "-state {GND 0.0}",
    "DARK -pst T -state {OFF GND}"
);

const ANY_ROWS: &str = rows!(
    "-state {HV 1.0} -state {LV 0.8} -state {OFF off}",
    "-state {GND 0.0}",
    "ON1 -pst T -state {HV GND}",
    "ON2 -pst T -state {LV GND}",
    "ANY -pst T -state {* GND}"
);

#[test]
fn judges_rows(rt: HostRuntime) -> Result<(), Fail> {
    let cases = [
        (FILES, 0, ACCEPTED),
        ([RTL, UPF, LIB, OR, ""], 1, MISMATCH),
        ([RTL, UPF, LIB, AND, " # a comment\n\n"], 0, ACCEPTED),
        // With VDD off the domain is off, and so the RTL's y is corrupt: each value refines it.
        ([RTL, DARK_ROW, LIB, OR, ""], 0, DARK),
        ([RTL, ANY_ROWS, LIB, AND, ""], 0, ANY),
    ];
    for (i, (texts, want, report)) in cases.iter().enumerate() {
        let (status, out) = run_on(rt.alloc(), &WORDS, texts, &[])?;
        assert_eq!(rt; status, *want, "at {i}");
        assert_eq!(rt; out.written(), report.as_bytes(), "at {i}");
    }
    Ok(())
}

// Two rows are dark: in the one VDD is off, in the other VSS. `*` leaves VDD open.
const EIGHT_ROWS: &str = rows!(
    "-state {HV 1.0} -state {LV 0.8} -state {OFF off}",
    "-state {GND 0.0} -state {LIFTED 0.1} -state {OPEN off}",
    "FULL -pst T -state {HV GND}",
    "DARK -pst T -state {OFF GND}",
    "LOW -pst T -state {LV GND}",
    "RAISED -pst T -state {HV LIFTED}",
    "ANY -pst T -state {* GND}",
    "FLOATING -pst T -state {LV OPEN}",
    "LEAST -pst T -state {LV LIFTED}",
    "AGAIN -pst T -state {HV GND}"
);

// A report of the counts, of the rows in which y differs at a 0 and b 1, and of each row with the states of its first cycle.
macro_rules! report {
    ($counts:literal, [$($different:literal),+], [$($row:literal $power:literal $ground:literal),+]) => {
        concat!(
            "powereq: mismatch\n",
            $counts,
            "\n",
            $(
                "mismatch start ",
                $different,
                " output y\n  cycle 1\n    supply VDD on\n    supply VSS on\n    in a 0\n    in b 1\n  rtl 0 net 1\n",
            )+
            $(
                "step start ",
                $row,
                " live\n  cycle 1\n    supply VDD ",
                $power,
                "\n    supply VSS ",
                $ground,
                "\n    in a 0\n    in b 0\n"
            ),+
        )
    };
}

// By hand: OR2 in place of `a & b` differs where just one of a and b is 1, of which a 0 and b 1 comes first. It shows in each
// row in which the domain can be on: in six of the eight, ANY among them, though its first cycle has VDD off. In DARK and
// FLOATING the domain is off, the RTL's y corrupt, and each value refines it.
const EIGHT: &str = report!(
    "obligations 8 refuted 2 mismatched 6 spent 0",
    ["FULL", "LOW", "RAISED", "ANY", "LEAST", "AGAIN"],
    [
        "FULL" "on" "on",
        "DARK" "off" "on",
        "LOW" "on" "on",
        "RAISED" "on" "on",
        "ANY" "off" "on",
        "FLOATING" "on" "off",
        "LEAST" "on" "on",
        "AGAIN" "on" "on"
    ]
);

#[test]
fn judges_eight_rows(rt: HostRuntime) -> Result<(), Fail> {
    let (status, out) = run_on(rt.alloc(), &WORDS, &[RTL, EIGHT_ROWS, LIB, OR, ""], &[])?;
    assert_eq!(rt; status, 1);
    assert_eq!(rt; out.written(), EIGHT.as_bytes());
    Ok(())
}
