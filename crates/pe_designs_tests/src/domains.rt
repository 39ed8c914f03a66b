//! Power domains of intents, worked out by hand.

use pe_base::Want;
use pe_intent::{Function, has_top_alone, is_one_domain, primary_supply, top};
use pe_supply::{Supplies, build};
use pe_upf_read::{Intent, read_upf};
use std::alloc::Global;
use std::test::Fail;

fn add(out: &mut Vec<u8>, bytes: &[u8]) -> Result<(), Want> {
    out.extend_from_slice(bytes)?;
    Ok(())
}

// The number of a supply, of which there are few.
fn digit(number: u32) -> u8 {
    if number < 10 {
        b'0' + number as u8
    } else {
        b'?'
    }
}

// Three supplies, numbered 0, 1 and 2, and a table.
const SUPPLIES: &str =
    "create_supply_port VDD\ncreate_supply_port VSS\ncreate_supply_port VX\nadd_port_state VDD -state {ON 1.0}\nadd_port_state VSS -state {ON 0.0}\ncreate_pst T -supplies {VDD VSS}\nadd_pst_state R -pst T -state {ON ON}\n";

// The top, whether the domain is of it alone, and the primary supplies of an intent of one domain.
static DOMAINS: [(&str, &str); 13] = [
    (
        "set_design_top top\ncreate_power_domain D -include_scope\nset_domain_supply_net D -primary_power_net VDD -primary_ground_net VSS\n",
        "top alone 01",
    ),
    (
        "create_supply_set S -function {power VX} -function {ground VSS}\ncreate_power_domain D -elements {.} -supply {primary S}\n",
        "- alone 21",
    ),
    (
        "create_supply_set S -function {power VX} -function {ground VSS}\ncreate_power_domain D -elements {.} -supply {primary S}\nset_domain_supply_net D -primary_power_net VDD -primary_ground_net VSS\n",
        "- alone 01",
    ),
    (
        "create_supply_set S -function {power VX} -function {ground VSS}\nset_domain_supply_net D -primary_power_net VDD -primary_ground_net VDD\ncreate_power_domain D -elements {.} -supply {primary S}\n",
        "- alone 21",
    ),
    (
        "create_supply_set S -function {power VX}\nset_domain_supply_net D -primary_power_net VDD -primary_ground_net VSS\ncreate_power_domain D -include_scope -supply {primary S}\n",
        "- alone 21",
    ),
    (
        "create_power_domain D -include_scope\nset_domain_supply_net D -primary_power_net VDD\n",
        "- alone",
    ),
    (
        "create_power_domain D -include_scope\ncreate_power_domain E\nset_domain_supply_net D -primary_power_net VDD -primary_ground_net VSS\n",
        "-",
    ),
    (
        "create_power_domain D\nset_domain_supply_net D -primary_power_net VDD -primary_ground_net VSS\n",
        "-",
    ),
    (
        "create_power_domain D -elements {. u}\nset_domain_supply_net D -primary_power_net VDD -primary_ground_net VSS\n",
        "- 01",
    ),
    (
        "set_design_top a\nset_design_top b\ncreate_power_domain D -include_scope\nset_domain_supply_net E -primary_power_net VDD -primary_ground_net VSS\n",
        "a alone",
    ),
    (
        "create_power_domain D -include_scope\nset_domain_supply_net D -primary_power_net VDD -primary_ground_net VSS\nset_isolation i -domain D\n",
        "- alone",
    ),
    (
        "create_power_domain D -include_scope\nset_domain_supply_net D -primary_power_net VDD -primary_ground_net VSS\nset_level_shifter l -domain D\n",
        "- alone 01",
    ),
    (
        "create_supply_set S -function {power VX}\ncreate_supply_set S -function {power VDD} -function {ground VDD}\ncreate_power_domain D -include_scope -supply {primary S}\nset_domain_supply_net D -primary_ground_net VSS\n",
        "- alone 21",
    ),
];

fn add_primary(out: &mut Vec<u8>, intent: &Intent, supplies: &Supplies) -> Result<(), Want> {
    if is_one_domain(intent) {
        add(out, b" ")?;
        out.push(digit(primary_supply(intent, supplies, Function::Power)))?;
        out.push(digit(primary_supply(intent, supplies, Function::Ground)))?;
    }
    Ok(())
}

fn domain(alloc: Global, text: &[u8]) -> Result<Vec<u8>, Fail> {
    let intent = read_upf(alloc, text)?;
    let supplies = build(alloc, &intent)?;
    let mut out = Vec::new(alloc);
    match top(&intent) {
        Some(name) => add(&mut out, name.bytes())?,
        None => add(&mut out, b"-")?,
    }
    if has_top_alone(&intent) {
        add(&mut out, b" alone")?;
    }
    add_primary(&mut out, &intent, &supplies)?;
    Ok(out)
}

#[test]
fn domains(rt: HostRuntime) -> Result<(), Fail> {
    let alloc = rt.alloc();
    for (text, want) in &DOMAINS {
        let mut whole = Vec::new(alloc);
        add(&mut whole, text.as_bytes())?;
        add(&mut whole, SUPPLIES.as_bytes())?;
        let out = domain(alloc, whole.as_slice())?;
        assert!(rt; out.as_slice() == want.as_bytes());
    }
    Ok(())
}
