//! How the tests run the program, and the texts that they share.

ghost use Rattle.std.specs.Prelude.{◌<◌};

use pe_base::Name;
use pe_outside::{MemFiles, MemSink};
use pe_tool::run_alone;
use sqlite_items::Items;
use std::alloc::Global;
use std::test::Fail;

pub(crate) const NAMES: [&str; 5] = ["rtl.v", "power.upf", "cells.lib", "net.v", "pairs.map"];

pub(crate) const WORDS: [&str; 6] = [
    "check",
    "rtl.v",
    "power.upf",
    "cells.lib",
    "net.v",
    "pairs.map",
];

// A row of the table is `NAME -pst T -state {..}`, with the columns VDD and VSS.
pub(crate) const RTL: &str = "module top(input a, input b, output y); assign y = a & b; endmodule";

pub(crate) const UPF: &str = "set_design_top top
create_power_domain PD -include_scope
create_supply_port VDD -direction in
create_supply_port VSS -direction in
create_supply_net VDD -domain PD
create_supply_net VSS -domain PD
connect_supply_net VDD -ports VDD
connect_supply_net VSS -ports VSS
set_domain_supply_net PD -primary_power_net VDD -primary_ground_net VSS
add_port_state VDD -state {HV 1.0} -state {OFF off}
add_port_state VSS -state {GND 0.0}
create_pst T -supplies {VDD VSS}
add_pst_state ON -pst T -state {HV GND}
";

pub(crate) const LIB: &str = "library (pe) {
  cell (INV) { pg_pin (VDD) { pg_type : primary_power; } pg_pin (VSS) { pg_type : primary_ground; } pin (A) { direction : input; } pin (Y) { direction : output; function : \"!A\"; power_down_function : \"!VDD + VSS\"; } }
  cell (AND2) { pg_pin (VDD) { pg_type : primary_power; } pg_pin (VSS) { pg_type : primary_ground; } pin (A) { direction : input; } pin (B) { direction : input; } pin (Y) { direction : output; function : \"A * B\"; power_down_function : \"!VDD + VSS\"; } }
  cell (OR2) { pg_pin (VDD) { pg_type : primary_power; } pg_pin (VSS) { pg_type : primary_ground; } pin (A) { direction : input; } pin (B) { direction : input; } pin (Y) { direction : output; function : \"A + B\"; power_down_function : \"!VDD + VSS\"; } }
  /* related pins alone: down where one of them is off */
  cell (OR2R) { pg_pin (VDD) { pg_type : primary_power; } pg_pin (VSS) { pg_type : primary_ground; } pin (A) { direction : input; } pin (B) { direction : input; } pin (Y) { direction : output; function : \"A + B\"; related_power_pin : VDD; related_ground_pin : VSS; } }
  /* down by its power alone, whatever its ground */
  cell (INVP) { pg_pin (VDD) { pg_type : primary_power; } pg_pin (VSS) { pg_type : primary_ground; } pin (A) { direction : input; } pin (Y) { direction : output; function : \"A'\"; power_down_function : \"VDD'\"; } }
  cell (XOR2) { pg_pin (VDD) { pg_type : primary_power; } pg_pin (VSS) { pg_type : primary_ground; } pin (A) { direction : input; } pin (B) { direction : input; } pin (Y) { direction : output; function : \"A ^ B\"; power_down_function : \"!(VDD * !VSS)\"; } }
  cell (MUX2) { pg_pin (VDD) { pg_type : primary_power; } pg_pin (VSS) { pg_type : primary_ground; } pin (A) { direction : input; } pin (B) { direction : input; } pin (S) { direction : input; } pin (Y) { direction : output; function : \"A !S + B S\"; power_down_function : \"!VDD + VSS\"; } }
  cell (HA) { pg_pin (VDD) { pg_type : primary_power; } pg_pin (VSS) { pg_type : primary_ground; } pin (A) { direction : input; } pin (B) { direction : input; } pin (S) { direction : output; function : \"A ^ B\"; power_down_function : \"!VDD + VSS\"; } pin (C) { direction : output; function : \"A & B\"; power_down_function : \"!VDD + VSS\"; } }
  cell (BUFW) { pg_pin (VDD) { pg_type : primary_power; } pg_pin (VSS) { pg_type : primary_ground; } pg_pin (VPW) { pg_type : pwell; } pin (A) { direction : input; } pin (Y) { direction : output; function : \"A\"; power_down_function : \"!VDD + VSS\"; } }
}
";

pub(crate) const AND: &str =
    "module top(input a, input b, output y, input VDD, input VSS); AND2 u1 (.A(a), .B(b), .Y(y), .VDD(VDD), .VSS(VSS)); endmodule";

pub(crate) const OR: &str =
    "module top(input a, input b, output y, input VDD, input VSS); OR2 u1 (.A(a), .B(b), .Y(y), .VDD(VDD), .VSS(VSS)); endmodule";

pub(crate) const FILES: [&str; 5] = [RTL, UPF, LIB, AND, ""];

pub(crate) const ACCEPTED: &str = "powereq: accepted
obligations 1 refuted 1 mismatched 0 spent 0
step start ON live
  cycle 1
    supply VDD on
    supply VSS on
    in a 0
    in b 0
";

// OR2 gives 1 at a 0 and b 1, where `a & b` is 0.
pub(crate) const MISMATCH: &str = "powereq: mismatch
obligations 1 refuted 0 mismatched 1 spent 0
mismatch start ON output y
  cycle 1
    supply VDD on
    supply VSS on
    in a 0
    in b 1
  rtl 0 net 1
step start ON live
  cycle 1
    supply VDD on
    supply VSS on
    in a 0
    in b 0
";

pub(crate) fn strings(alloc: Global, words: &[&str]) -> Result<Vec<String>, Fail> {
    let mut strings = Vec::new(alloc);
    for word in words {
        strings.push(format!(in alloc; "{word}")?)?;
    }
    Ok(strings)
}

// Files of the first names with these texts, read in pieces of so many bytes. The reads of these numbers fail.
pub(crate) fn files_of(
    alloc: Global,
    texts: &[&str],
    piece: u32,
    fails: &[u64],
) -> Result<MemFiles, Fail>
    requires { 0 < piece }
{
    let mut files = Items::new(alloc);
    for (name, text) in NAMES.iter().zip(texts) {
        let name = Name::new(alloc, name.as_bytes())?;
        let bytes = Items::from_slice(alloc, text.as_bytes())?;
        files.push((name, bytes))?;
    }
    Ok(MemFiles::new(files, piece, Items::from_slice(alloc, fails)?))
}

// What is answered to the words over files of these texts, and what is written.
pub(crate) fn run_on(
    alloc: Global,
    words: &[&str],
    texts: &[&str],
    fails: &[u64],
) -> Result<(u8, MemSink), Fail> {
    let words = strings(alloc, words)?;
    let mut files = files_of(alloc, texts, 65_536, fails)?;
    let mut out = MemSink::new(alloc, 8_192, 8_192, Items::new(alloc))?;
    let status = run_alone(alloc, words.as_slice(), &mut files, &mut out);
    Ok((status, out))
}
