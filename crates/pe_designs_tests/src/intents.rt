//! Intents and the supplies or refusals that were worked out for them by hand.

use pe_base::{Name, Want};
use pe_supply::{Level, Row, Supplies, SupplyFault, Switch, build};
use pe_upf_read::read_upf;
use std::alloc::Global;
use std::test::Fail;

fn add(out: &mut Vec<u8>, bytes: &[u8]) -> Result<(), Want> {
    out.extend_from_slice(bytes)?;
    Ok(())
}

// A number below 1,000.
fn add_number(out: &mut Vec<u8>, number: u32) -> Result<(), Want> {
    if number >= 100 {
        out.push(b'0' + (number / 100 % 10) as u8)?;
    }
    if number >= 10 {
        out.push(b'0' + (number / 10 % 10) as u8)?;
    }
    out.push(b'0' + (number % 10) as u8)?;
    Ok(())
}

fn add_option(out: &mut Vec<u8>, number: Option<u32>) -> Result<(), Want> {
    match number {
        Some(number) => add_number(out, number),
        None => add(out, b"-"),
    }
}

fn add_numbers(out: &mut Vec<u8>, numbers: &[u32]) -> Result<(), Want> {
    for number in numbers {
        add_number(out, *number)?;
        add(out, b" ")?;
    }
    add(out, b";")
}

fn add_names(out: &mut Vec<u8>, names: &[(Name, u32)]) -> Result<(), Want> {
    for name in names {
        add(out, name.0.bytes())?;
        add(out, b"=")?;
        add_number(out, name.1)?;
        add(out, b" ")?;
    }
    add(out, b";")
}

fn add_switches(out: &mut Vec<u8>, switches: &[Switch]) -> Result<(), Want> {
    for switch in switches {
        add(out, switch.name.bytes())?;
        add(out, b":")?;
        add_number(out, switch.output)?;
        add(out, b"<")?;
        add_number(out, switch.input)?;
        add(out, b" ")?;
    }
    add(out, b";")
}

fn add_sets(out: &mut Vec<u8>, sets: &[(Name, Option<u32>, Option<u32>)]) -> Result<(), Want> {
    for set in sets {
        add(out, set.0.bytes())?;
        add(out, b":")?;
        add_option(out, set.1)?;
        add(out, b",")?;
        add_option(out, set.2)?;
        add(out, b" ")?;
    }
    add(out, b";")
}

fn add_levels(out: &mut Vec<u8>, levels: &[Level]) -> Result<(), Want> {
    for level in levels {
        match level {
            Level::On => add(out, b"1")?,
            Level::Off => add(out, b"0")?,
            Level::Any => add(out, b"*")?,
        }
    }
    Ok(())
}

fn add_rows(out: &mut Vec<u8>, rows: &[Row]) -> Result<(), Want> {
    for row in rows {
        add(out, row.name.bytes())?;
        add(out, b":")?;
        add_levels(out, row.levels.as_slice())?;
        add(out, b" ")?;
    }
    Ok(())
}

fn add_supplies(out: &mut Vec<u8>, supplies: &Supplies) -> Result<(), Want> {
    add_names(out, supplies.names.as_slice())?;
    add_numbers(out, supplies.roots.as_slice())?;
    add_switches(out, supplies.switches.as_slice())?;
    add_sets(out, supplies.sets.as_slice())?;
    add_numbers(out, supplies.table.as_slice())?;
    add_rows(out, supplies.rows.as_slice())
}

fn add_fault(out: &mut Vec<u8>, word: &[u8], name: &Name) -> Result<(), Want> {
    add(out, word)?;
    add(out, b" ")?;
    add(out, name.bytes())
}

fn add_count(out: &mut Vec<u8>, word: &[u8], count: u32) -> Result<(), Want> {
    add(out, word)?;
    add(out, b" ")?;
    add_number(out, count)
}

fn add_refusal(out: &mut Vec<u8>, fault: &SupplyFault) -> Result<(), Want> {
    match fault {
        SupplyFault::Memory => Err(Want),
        SupplyFault::NoSupply { name } => add_fault(out, b"NoSupply", name),
        SupplyFault::TwoDrivers { name } => add_fault(out, b"TwoDrivers", name),
        SupplyFault::TwoNets { port } => add_fault(out, b"TwoNets", port),
        SupplyFault::SupplyLoop { name } => add_fault(out, b"SupplyLoop", name),
        SupplyFault::Expression { name } => add_fault(out, b"Expression", name),
        SupplyFault::NoRows => add(out, b"NoRows"),
        SupplyFault::TwoTables { name } => add_fault(out, b"TwoTables", name),
        SupplyFault::RowLength { name } => add_fault(out, b"RowLength", name),
        SupplyFault::NoState { name } => add_fault(out, b"NoState", name),
        SupplyFault::TooManyRows { count } => add_count(out, b"TooManyRows", *count),
        SupplyFault::TooManySupplies { count } => add_count(out, b"TooManySupplies", *count),
    }
}

// What is answered to the intent of a text: names with their supplies; roots; switches; sets; the table; rows.
fn outcome(alloc: Global, text: &[u8]) -> Result<Vec<u8>, Fail> {
    let intent = read_upf(alloc, text)?;
    let mut out = Vec::new(alloc);
    match build(alloc, &intent) {
        Ok(supplies) => add_supplies(&mut out, &supplies)?,
        Err(fault) => add_refusal(&mut out, &fault)?,
    }
    Ok(out)
}

type Case = (&'static str, &'static str, &'static str);

// Two ports with their states, and a table of them with one row.
const PORTS: &str =
    "create_supply_port VDD\ncreate_supply_port VSS\nadd_port_state VDD -state {HV 1.0} -state {OFF off}\nadd_port_state VSS -state {GND 0.0}\n";

const TABLE: &str = "create_pst T -supplies {VDD VSS}\nadd_pst_state R -pst T -state {HV GND}\n";

// Further commands between the ports and the table, further ones behind it, and the outcome.
static CASES: [Case; 42] = [
    ("", "", "VDD=0 VSS=1 ;0 1 ;;;0 1 ;R:11 "),
    (
        "create_supply_net VDD\ncreate_supply_net VSS\nconnect_supply_net VDD -ports VDD\nconnect_supply_net VSS -ports VSS\n",
        "",
        "VDD=0 VSS=1 ;0 1 ;;;0 1 ;R:11 ",
    ),
    (
        "create_supply_net N\nconnect_supply_net N -ports {VDD VSS}\n",
        "",
        "VDD=0 VSS=0 N=0 ;0 ;;;0 0 ;R:11 ",
    ),
    (
        "create_supply_net N\nconnect_supply_net N -ports VSS\n",
        "",
        "VDD=0 VSS=1 N=1 ;0 1 ;;;0 1 ;R:11 ",
    ),
    (
        "create_supply_net N\nconnect_supply_net N -ports VDD\ncreate_supply_port Q\nconnect_supply_net N -ports Q\n",
        "",
        "VDD=0 VSS=1 N=0 Q=0 ;0 1 ;;;0 1 ;R:11 ",
    ),
    (
        "create_supply_net A\ncreate_supply_net B\n",
        "",
        "VDD=0 VSS=1 A=2 B=3 ;0 1 2 3 ;;;0 1 ;R:11 ",
    ),
    (
        "create_supply_net A\ncreate_supply_net A -reuse\n",
        "",
        "VDD=0 VSS=1 A=2 ;0 1 2 ;;;0 1 ;R:11 ",
    ),
    (
        "create_supply_net A\ncreate_power_switch s -output_supply_port {o A} -input_supply_port {i VDD} -control_port {c n} -on_state {x i {!c}} -off_state {y {c}}\n",
        "",
        "VDD=0 VSS=1 A=2 s/o=2 ;0 1 ;s:2<0 ;;0 1 ;R:11 ",
    ),
    (
        "create_supply_net A\ncreate_supply_net B\ncreate_supply_net C\ncreate_power_switch t -output_supply_port {o B} -input_supply_port {i A} -control_port {c n} -on_state {x i {c}}\ncreate_power_switch s -output_supply_port {o A} -input_supply_port {i VDD} -control_port {c n} -on_state {x i {c}}\ncreate_power_switch u -output_supply_port {o C} -input_supply_port {i B} -control_port {c n} -on_state {x i {c}}\n",
        "",
        "VDD=0 VSS=1 A=2 B=3 C=4 t/o=3 s/o=2 u/o=4 ;0 1 ;t:3<2 s:2<0 u:4<3 ;;0 1 ;R:11 ",
    ),
    (
        "create_power_switch s -output_supply_port {o A} -input_supply_port {i VDD} -control_port {c n} -on_state {x i {c}}\ncreate_supply_net A\n",
        "",
        "VDD=0 VSS=1 s/o=2 A=2 ;0 1 ;s:2<0 ;;0 1 ;R:11 ",
    ),
    (
        "create_supply_set S -function {power VDD} -function {ground VSS}\ncreate_supply_set E\ncreate_supply_set H -function {ground VSS}\n",
        "",
        "VDD=0 VSS=1 ;0 1 ;;S:0,1 E:-,- H:-,1 ;0 1 ;R:11 ",
    ),
    (
        "create_supply_set S -function {power VDD}\ncreate_power_domain D -supply {primary S}\nset_isolation i -domain D -isolation_supply S\n",
        "",
        "VDD=0 VSS=1 ;0 1 ;;S:0,- ;0 1 ;R:11 ",
    ),
    (
        "",
        "add_pst_state Q -pst T -state {OFF *}\nadd_pst_state U -pst T -state {* GND}\n",
        "VDD=0 VSS=1 ;0 1 ;;;0 1 ;R:11 Q:0* U:*1 ",
    ),
    (
        "add_port_state VDD -state {HV off}\n",
        "",
        "VDD=0 VSS=1 ;0 1 ;;;0 1 ;R:11 ",
    ),
    (
        "add_port_state VSS -state {Z off} -state {Z 1.0}\n",
        "add_pst_state Q -pst T -state {HV Z}\n",
        "VDD=0 VSS=1 ;0 1 ;;;0 1 ;R:11 Q:10 ",
    ),
    (
        "add_port_state VSS -state {Z off 1.0}\n",
        "add_pst_state Q -pst T -state {HV Z}\n",
        "VDD=0 VSS=1 ;0 1 ;;;0 1 ;R:11 Q:11 ",
    ),
    ("connect_supply_net X -ports VDD\n", "", "NoSupply X"),
    (
        "create_supply_net N\nconnect_supply_net N -ports {VDD X}\n",
        "",
        "NoSupply X",
    ),
    (
        "create_supply_net N\ncreate_supply_net M\nconnect_supply_net N -ports M\n",
        "",
        "NoSupply M",
    ),
    (
        "create_supply_set S -function {power X} -function {ground Y}\n",
        "",
        "NoSupply X",
    ),
    (
        "create_supply_set S -function {ground Y}\n",
        "",
        "NoSupply Y",
    ),
    (
        "set_domain_supply_net D -primary_power_net VDD -primary_ground_net Y\n",
        "",
        "NoSupply Y",
    ),
    (
        "create_power_domain D -supply {primary S}\n",
        "",
        "NoSupply S",
    ),
    (
        "create_power_switch s -output_supply_port {o A} -input_supply_port {i B} -control_port {c n} -on_state {x i {c}}\n",
        "",
        "NoSupply A",
    ),
    (
        "create_supply_net A\ncreate_power_switch s -output_supply_port {o A} -input_supply_port {i B} -control_port {c n} -on_state {x i {c}}\n",
        "",
        "NoSupply B",
    ),
    (
        "create_supply_net A\ncreate_power_switch s -output_supply_port {o A} -input_supply_port {i VDD} -control_port {c n} -on_state {x j {c}}\n",
        "",
        "NoSupply j",
    ),
    ("add_port_state X -state {S 1.0}\n", "", "NoSupply X"),
    (
        "create_supply_net N\nadd_port_state N -state {S 1.0}\n",
        "",
        "NoSupply N",
    ),
    ("", "add_pst_state Q -pst U -state {HV GND}\n", "NoSupply U"),
    (
        "set_isolation i -domain D -isolation_supply S\n",
        "",
        "NoSupply S",
    ),
    (
        "set_retention r -domain D -retention_supply S\n",
        "",
        "NoSupply S",
    ),
    (
        "create_supply_net A\ncreate_power_switch s -output_supply_port {o A} -input_supply_port {i VDD} -control_port {c n} -on_state {x i {c}}\ncreate_power_switch t -output_supply_port {o A} -input_supply_port {i VSS} -control_port {c n} -on_state {x i {c}}\n",
        "",
        "TwoDrivers A",
    ),
    (
        "create_supply_net A\ncreate_supply_net B\nconnect_supply_net A -ports VDD\nconnect_supply_net B -ports VDD\n",
        "",
        "TwoNets VDD",
    ),
    (
        "create_supply_net A\ncreate_supply_net VDD\nconnect_supply_net A -ports {VSS VDD}\n",
        "",
        "TwoNets VDD",
    ),
    (
        "create_supply_net A\ncreate_supply_net B\ncreate_power_switch s -output_supply_port {o B} -input_supply_port {i A} -control_port {c n} -on_state {x i {c}}\ncreate_power_switch t -output_supply_port {o A} -input_supply_port {i B} -control_port {c n} -on_state {x i {c}}\n",
        "",
        "SupplyLoop A",
    ),
    (
        "create_supply_net A\ncreate_power_switch s -output_supply_port {o A} -input_supply_port {i A} -control_port {c n} -on_state {x i {c}}\n",
        "",
        "SupplyLoop A",
    ),
    (
        "create_supply_net A\ncreate_power_switch s -output_supply_port {o A} -input_supply_port {i VDD} -control_port {c n} -on_state {x i {d}}\n",
        "",
        "Expression s",
    ),
    (
        "create_supply_net A\ncreate_power_switch s -output_supply_port {o A} -input_supply_port {i VDD} -control_port {c n} -on_state {x i {c}} -off_state {y {c &}}\n",
        "",
        "Expression s",
    ),
    ("", "create_pst U -supplies {VDD}\n", "TwoTables U"),
    ("", "add_pst_state Q -pst T -state {HV}\n", "RowLength Q"),
    ("", "add_pst_state Q -pst T -state {LV GND}\n", "NoState LV"),
    (
        "",
        "add_pst_state Q -pst T -state {GND GND}\n",
        "NoState GND",
    ),
];

#[test]
fn worked_intents(rt: HostRuntime) -> Result<(), Fail> {
    let alloc = rt.alloc();
    for (between, behind, want) in &CASES {
        let mut text = Vec::new(alloc);
        add(&mut text, PORTS.as_bytes())?;
        add(&mut text, between.as_bytes())?;
        add(&mut text, TABLE.as_bytes())?;
        add(&mut text, behind.as_bytes())?;
        let out = outcome(alloc, text.as_slice())?;
        assert!(rt; out.as_slice() == want.as_bytes());
    }
    Ok(())
}

// The two ports and the table, further nets N, and further rows R.
fn sized(alloc: Global, nets: u32, rows: u32) -> Result<Vec<u8>, Want> {
    let mut text = Vec::new(alloc);
    add(&mut text, PORTS.as_bytes())?;
    for net in 0..nets {
        add(&mut text, b"create_supply_net N")?;
        add_number(&mut text, net)?;
        add(&mut text, b"\n")?;
    }
    add(&mut text, TABLE.as_bytes())?;
    for _row in 0..rows {
        add(&mut text, b"add_pst_state R -pst T -state {HV GND}\n")?;
    }
    Ok(text)
}

#[test]
fn sizes(rt: HostRuntime) -> Result<(), Fail> {
    let alloc = rt.alloc();
    let no_rows = outcome(alloc, PORTS.as_bytes())?;
    assert!(rt; no_rows.as_slice() == b"NoRows".as_slice());
    let supplies = outcome(alloc, sized(alloc, 63, 0)?.as_slice())?;
    assert!(rt; supplies.as_slice() == b"TooManySupplies 65".as_slice());
    let rows = outcome(alloc, sized(alloc, 63, 64)?.as_slice())?;
    assert!(rt; rows.as_slice() == b"TooManyRows 65".as_slice());
    let most = read_upf(alloc, sized(alloc, 62, 63)?.as_slice())?;
    let most = build(alloc, &most)?;
    assert!(rt; most.roots.len() == 64);
    assert!(rt; most.rows.len() == 64);
    Ok(())
}

// Whole intents: one domain, and one with a switched domain below it.
const DOMAIN: &str =
    "set_design_top top\ncreate_power_domain PD -include_scope\ncreate_supply_port VDD -direction in\ncreate_supply_port VSS -direction in\ncreate_supply_net VDD -domain PD\ncreate_supply_net VSS -domain PD\nconnect_supply_net VDD -ports VDD\nconnect_supply_net VSS -ports VSS\nset_domain_supply_net PD -primary_power_net VDD -primary_ground_net VSS\nadd_port_state VDD -state {HV 1.0} -state {OFF off}\nadd_port_state VSS -state {GND 0.0}\n";

static WHOLE: [(&str, &str); 2] = [
    (
        "create_pst T -supplies {VDD VSS}\nadd_pst_state ON -pst T -state {HV GND}\n",
        "VDD=0 VSS=1 ;0 1 ;;;0 1 ;ON:11 ",
    ),
    (
        "create_supply_net VDDS -domain PD\ncreate_power_domain PD_A -elements {u_a}\nset_domain_supply_net PD_A -primary_power_net VDDS -primary_ground_net VSS\ncreate_supply_set SS -function {power VDD} -function {ground VSS}\ncreate_power_switch sw -domain PD -output_supply_port {out VDDS} -input_supply_port {in VDD} -control_port {c slp} -on_state {on in {!c}} -off_state {off {c}}\nadd_port_state sw/out -state {HV 1.0} -state {OFF off}\nset_isolation i1 -domain PD_A -applies_to outputs -clamp_value 0 -isolation_signal iso -isolation_sense high -isolation_supply SS\ncreate_pst T -supplies {VDD VDDS VSS}\nadd_pst_state RUN -pst T -state {HV HV GND}\nadd_pst_state SLEEP -pst T -state {HV OFF GND}\n",
        "VDD=0 VSS=1 VDDS=2 sw/out=2 ;0 1 ;sw:2<0 ;SS:0,1 ;0 2 1 ;RUN:111 SLEEP:101 ",
    ),
];

#[test]
fn whole_intents(rt: HostRuntime) -> Result<(), Fail> {
    let alloc = rt.alloc();
    for (behind, want) in &WHOLE {
        let mut text = Vec::new(alloc);
        add(&mut text, DOMAIN.as_bytes())?;
        add(&mut text, behind.as_bytes())?;
        let out = outcome(alloc, text.as_slice())?;
        assert!(rt; out.as_slice() == want.as_bytes());
    }
    Ok(())
}
