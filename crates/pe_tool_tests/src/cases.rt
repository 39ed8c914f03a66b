//! Designs by hand: what they share.

use crate::running::{LIB, WORDS, run_on};
use std::alloc::Global;
use std::process::Abort;
use std::test::Fail;

// The domain's primary power, the columns of the table, and its rows.
macro_rules! upf {
    ($power:literal, $columns:literal, $($row:literal),+) => {
        concat!(
            "set_design_top top\n",
            "create_power_domain PD -include_scope\n",
            "create_supply_port VDD -direction in\n",
            "create_supply_port VSS -direction in\n",
            "create_supply_port VAON -direction in\n",
            "create_supply_net VDD -domain PD\n",
            "create_supply_net VSS -domain PD\n",
            "create_supply_net VAON -domain PD\n",
            "connect_supply_net VDD -ports VDD\n",
            "connect_supply_net VSS -ports VSS\n",
            "connect_supply_net VAON -ports VAON\n",
            "set_domain_supply_net PD -primary_power_net ",
            $power,
            " -primary_ground_net VSS\n",
            "add_port_state VDD -state {HV 1.0} -state {OFF off}\n",
            "add_port_state VSS -state {GND 0.0}\n",
            "add_port_state VAON -state {HV 1.0} -state {OFF off}\n",
            "create_pst T -supplies {",
            $columns,
            "}\n",
            $("add_pst_state ", $row, "\n"),+
        )
    };
}

pub(crate) const ON: &str = upf!("VDD", "VDD VSS VAON", "ON -pst T -state {HV GND HV}");

// In the second row VAON alone is off.
pub(crate) const TWO_ROWS: &str = upf!(
    "VDD",
    "VDD VSS VAON",
    "ON -pst T -state {HV GND HV}",
    "LOW -pst T -state {HV GND OFF}"
);

// A row that no state of the supplies meets: VDD is on and off.
pub(crate) const NEVER: &str = upf!("VDD", "VDD VSS VDD", "NEVER -pst T -state {HV GND OFF}");

// The domain is on VAON, which is on, and VDD is off.
pub(crate) const DARK_BUT_ON: &str = upf!(
    "VAON",
    "VDD VSS VAON",
    "DARK -pst T -state {OFF GND HV}"
);

// A design, the status and the report.
pub(crate) struct Case {
    // What the case shows.
    pub(crate) why: &'static str,
    pub(crate) upf: &'static str,
    pub(crate) rtl: &'static str,
    pub(crate) net: &'static str,
    pub(crate) status: u8,
    pub(crate) report: &'static str,
}

// Whether each of the designs has its status and its report.
pub(crate) fn judge(rt: &impl Abort, alloc: Global, cases: &[Case]) -> Result<(), Fail> {
    for case in cases {
        let texts = [case.rtl, case.upf, LIB, case.net, ""];
        let (status, out) = run_on(alloc, &WORDS, &texts, &[])?;
        assert_eq!(rt; status, case.status, "{}", case.why);
        assert_eq!(rt; out.written(), case.report.as_bytes(), "{}", case.why);
    }
    Ok(())
}
