//! UPF texts with the trees that they spell or the places where they go wrong, worked out by hand.

use pe_base::Name;
use pe_text::{ReadFault, Which};
use pe_upf_read::{Command, Flow, Sense, Side, read_upf};
use sqlite_items::Items;
use std::alloc::Global;
use std::process::Abort;
use std::test::Fail;

// Each command of the tree is a line: its name, and each field behind the word for it.
type Row = (&'static [u8], &'static str);

// What a text is made of.
static TEXTS: [Row; 18] = [
    (b"", ""),
    (b"# nothing\n\n  ;; # still nothing", ""),
    (
        b"set_design_top a;set_design_top b\nset_design_top c",
        "top a\ntop b\ntop c",
    ),
    (b"upf_version 2.0\n", "version 2.0"),
    (b"set_design_top t; # x\n", "top t"),
    (b"set_design_top t # x", "syntax 17"),
    (b"set_design_top t\r\n", "top t\r"),
    (b"\tset_design_top\\\n t", "top t"),
    (b"set_design_top \"t", "syntax 15"),
    (b"set_design_top \x80", "syntax 15"),
    (b"set_design_top $t", "unsupported 15 $"),
    (b"create_supply_net a -resolve b", "unsupported 20 -resolve"),
    (b"add_power_state P", "unsupported 0 add_power_state"),
    (b"create_thing x", "syntax 0"),
    (b"\"set_design_top\" t", "syntax 0"),
    (b"{set_design_top} t", "syntax 0"),
    (b"set_design_top t; t", "syntax 18"),
    (b"}", "syntax 0"),
];

// Names.
static NAMES: [Row; 16] = [
    (b"set_design_top \"my top\"", "top my top"),
    (b"set_design_top {t}", "top t"),
    (b"set_design_top {\"my top\"}", "top my top"),
    (b"set_design_top {iso[0]}", "top iso[0]"),
    (b"set_design_top {\n\t t\n}", "top t"),
    (b"set_design_top \"\"", "top "),
    (b"set_design_top set_design_top", "top set_design_top"),
    (
        b"set_design_top -isolation_supply_set",
        "top -isolation_supply_set",
    ),
    (b"set_design_top", "syntax 14"),
    (b"set_design_top\nset_design_top t", "syntax 14"),
    (b"set_design_top t u", "syntax 17"),
    (b"set_design_top {t u}", "syntax 18"),
    (b"set_design_top {}", "syntax 16"),
    (b"set_design_top {{t}}", "syntax 16"),
    (b"set_design_top {t", "syntax 17"),
    (b"set_design_top t }", "syntax 17"),
];

// Domains, ports and nets.
static DOMAINS: [Row; 23] = [
    (
        b"create_power_domain D",
        "domain D elements - scope no primary -",
    ),
    (
        b"create_power_domain D -supply {primary S} -include_scope -elements {a b}",
        "domain D elements [a b] scope yes primary S",
    ),
    (
        b"create_power_domain D -elements a",
        "domain D elements [a] scope no primary -",
    ),
    (
        b"create_power_domain D -elements {{a} \"b c\" d}",
        "domain D elements [a b c d] scope no primary -",
    ),
    (
        b"create_power_domain D -elements {}",
        "domain D elements [] scope no primary -",
    ),
    (
        b"create_power_domain D -supply{primary -elements}",
        "domain D elements - scope no primary -elements",
    ),
    (
        b"create_power_domain D -elements {a} -elements {b}",
        "syntax 36",
    ),
    (b"create_power_domain D -elements {{a b}}", "syntax 36"),
    (b"create_power_domain D -supply {second S}", "syntax 31"),
    (b"create_power_domain D -supply {primary}", "syntax 38"),
    (b"create_power_domain D -domain D", "syntax 22"),
    (
        b"create_supply_port P -direction out -domain D",
        "port P direction out domain D",
    ),
    (
        b"create_supply_port P -domain D -direction in",
        "port P direction in domain D",
    ),
    (b"create_supply_port P", "port P direction - domain -"),
    (b"create_supply_port P -direction inout", "syntax 32"),
    (
        b"create_supply_net -domain -domain -reuse",
        "net -domain domain -reuse reuse no",
    ),
    (
        b"create_supply_net N -reuse -domain in",
        "net N domain in reuse yes",
    ),
    (b"create_supply_net N -reuse -reuse", "syntax 27"),
    (b"create_supply_net N -color red", "syntax 20"),
    (
        b"connect_supply_net -ports -ports -ports",
        "connect -ports [-ports]",
    ),
    (b"connect_supply_net N -ports {P Q/R}", "connect N [P Q/R]"),
    (b"connect_supply_net N", "syntax 20"),
    (b"connect_supply_net N -ports {P} -ports {Q}", "syntax 32"),
];

// Supply sets, primaries and switches.
static SUPPLIES: [Row; 23] = [
    (b"create_supply_set S", "set S power - ground -"),
    (
        b"create_supply_set S -function {power ground}",
        "set S power ground ground -",
    ),
    (
        b"create_supply_set S -function {ground G} -function {power P}",
        "set S power P ground G",
    ),
    (
        b"create_supply_set S -function {power P} -function {ground G}",
        "set S power P ground G",
    ),
    (
        b"create_supply_set S -function {ground G}",
        "set S power - ground G",
    ),
    (
        b"create_supply_set S -function {power A} -function {power B}",
        "syntax 51",
    ),
    (
        b"create_supply_set S -function {ground A} -function {ground B}",
        "syntax 52",
    ),
    (
        b"create_supply_set S -function {power A} -function {ground B} -function {power C}",
        "syntax 61",
    ),
    (b"create_supply_set S -function {nwell N}", "syntax 31"),
    (
        b"set_domain_supply_net D -primary_ground_net G",
        "primary D power - ground G",
    ),
    (
        b"set_domain_supply_net D -primary_ground_net G -primary_power_net P",
        "primary D power P ground G",
    ),
    (
        b"create_power_switch W -output_supply_port {o B} -input_supply_port {i A} -on_state {s i {!c}}",
        "switch W domain - output (o B) input (i A) controls [] on (s i !c) off []",
    ),
    (
        b"create_power_switch W -off_state {x {c}} -control_port {c n} -on_state {s i { {a} &\n!b }} -control_port {d m} -input_supply_port {i A} -domain D -output_supply_port {o B} -off_state {{y} {}}",
        "switch W domain D output (o B) input (i A) controls [(c n) (d m)] on (s i  {a} &\n!b ) off [(x c) (y )]",
    ),
    (
        b"create_power_switch W -input_supply_port {i A} -on_state {s i {c}}",
        "syntax 66",
    ),
    (
        b"create_power_switch W -output_supply_port {o B} -on_state {s i {c}};",
        "syntax 67",
    ),
    (
        b"create_power_switch W -output_supply_port {o B} -input_supply_port {i A}\n",
        "syntax 72",
    ),
    (
        b"create_power_switch W -output_supply_port {o B} -output_supply_port {o C}",
        "syntax 48",
    ),
    (
        b"create_power_switch W -input_supply_port {i A} -input_supply_port {i A}",
        "unsupported 47 -input_supply_port",
    ),
    (b"create_power_switch W -on_state {s i c}", "syntax 37"),
    (b"create_power_switch W -on_state {s i {c} d}", "syntax 41"),
    (b"create_power_switch W -off_state {s i", "syntax 36"),
    (b"create_power_switch W -off_state {s {i", "syntax 38"),
    (
        b"create_power_switch W -off_state {s {a b c d e f g h i j k}}",
        "limit 36 inputs",
    ),
];

// States and tables.
static STATES: [Row; 13] = [
    (b"add_port_state P", "states P []"),
    (
        b"add_port_state P -state {HV 1.0} -state {OFF off} -state {T 0.9 \"1.0\" {1.1}}",
        "states P [(HV [1.0]) (OFF [off]) (T [0.9 1.0 1.1])]",
    ),
    (b"add_port_state P -state {S}", "syntax 26"),
    (b"add_port_state P -state {S 1 2 3 4}", "syntax 33"),
    (b"create_pst T -supplies {A\n  B\n}", "table T [A B]"),
    (b"create_pst T \\\n -supplies {}", "table T []"),
    (b"create_pst T -supplies {A", "syntax 25"),
    (b"create_pst T {A}", "syntax 13"),
    (b"create_pst -supplies {A} T", "syntax 21"),
    (b"add_pst_state R -state {HV *} -pst T", "row R of T [HV *]"),
    (b"add_pst_state R -state {HV *}", "syntax 29"),
    (b"add_pst_state R -pst T\n", "syntax 22"),
    (b"add_pst_state R -pst T -pst T", "syntax 23"),
];

// Isolation, retention and commands without effect.
static STRATEGIES: [Row; 21] = [
    (
        b"set_isolation I -domain D",
        "isolation I domain D sides - elements - clamp - signal - sense - supply - location - none no",
    ),
    (
        b"set_isolation I -no_isolation -location self -isolation_supply S -isolation_sense low -isolation_signal u/en -clamp_value 1 -elements {a b[0]} -applies_to both -domain D",
        "isolation I domain D sides both elements [a b[0]] clamp 1 signal u/en sense low supply S location self none yes",
    ),
    (
        b"set_isolation I -domain D -isolation_supply_set S -applies_to inputs -isolation_sense high",
        "isolation I domain D sides inputs elements - clamp - signal - sense high supply S location - none no",
    ),
    (b"set_isolation I -applies_to outputs\n", "syntax 35"),
    (b"set_isolation I -applies_to outputs", "syntax 35"),
    (
        b"set_isolation I -domain D -isolation_sense posedge",
        "syntax 43",
    ),
    (b"set_isolation I -domain D -applies_to all", "syntax 38"),
    (
        b"set_isolation I -domain D -isolation_supply A -isolation_supply_set B",
        "syntax 46",
    ),
    (
        b"set_isolation I -domain D -isolation_supply_set A -isolation_supply_set B",
        "syntax 50",
    ),
    (
        b"set_isolation I -domain D -retention_supply S",
        "syntax 26",
    ),
    (
        b"set_retention R -restore_signal {r negedge} -domain D -save_signal {{s} low} -retention_supply_set S -elements u",
        "retention R domain D elements [u] supply S save (s low) restore (r negedge)",
    ),
    (
        b"set_retention R -domain D",
        "retention R domain D elements - supply - save - restore -",
    ),
    (b"set_retention R -retention_supply S", "syntax 35"),
    (
        b"set_retention R -domain D -retention_supply_set A -retention_supply B",
        "syntax 50",
    ),
    (
        b"set_retention R -domain D -save_signal {s edge}",
        "syntax 42",
    ),
    (b"set_retention R -domain D -save_signal {s}", "syntax 41"),
    (
        b"set_level_shifter L -source { a {b  c} } \"e f\" -domain",
        "ignored set_level_shifter [L -source  a {b  c}  e f -domain]",
    ),
    (b"map_power_switch", "ignored map_power_switch []"),
    (
        b"map_retention_cell {} {in}",
        "ignored map_retention_cell [ in]",
    ),
    (b"map_retention_cell {a", "syntax 21"),
    (b"map_retention_cell a}", "syntax 20"),
];

fn put(line: &mut String, name: &Name) -> Result<(), Fail> {
    for byte in name.bytes() {
        line.push(char::from(*byte))?;
    }
    Ok(())
}

fn put_option(line: &mut String, name: &Option<Name>) -> Result<(), Fail> {
    match name {
        Some(name) => put(line, name),
        None => Ok(line.push('-')?),
    }
}

fn put_list(line: &mut String, names: &Items<Name>) -> Result<(), Fail> {
    line.push('[')?;
    for (i, name) in names.as_slice().iter().enumerate() {
        if i > 0 {
            line.push(' ')?;
        }
        put(line, name)?;
    }
    Ok(line.push(']')?)
}

fn put_elements(line: &mut String, names: &Option<Items<Name>>) -> Result<(), Fail> {
    match names {
        Some(names) => put_list(line, names),
        None => Ok(line.push('-')?),
    }
}

fn put_two(line: &mut String, two: &(Name, Name)) -> Result<(), Fail> {
    line.push('(')?;
    put(line, &two.0)?;
    line.push(' ')?;
    put(line, &two.1)?;
    Ok(line.push(')')?)
}

fn put_twos(line: &mut String, twos: &Items<(Name, Name)>) -> Result<(), Fail> {
    line.push('[')?;
    for (i, two) in twos.as_slice().iter().enumerate() {
        if i > 0 {
            line.push(' ')?;
        }
        put_two(line, two)?;
    }
    Ok(line.push(']')?)
}

fn put_states(line: &mut String, states: &Items<(Name, Items<Name>)>) -> Result<(), Fail> {
    line.push('[')?;
    for (i, state) in states.as_slice().iter().enumerate() {
        if i > 0 {
            line.push(' ')?;
        }
        line.push('(')?;
        put(line, &state.0)?;
        line.push(' ')?;
        put_list(line, &state.1)?;
        line.push(')')?;
    }
    Ok(line.push(']')?)
}

fn flow_word(flow: &Option<Flow>) -> &'static str {
    match flow {
        Some(Flow::Inward) => "in",
        Some(Flow::Outward) => "out",
        None => "-",
    }
}

fn side_word(side: &Option<Side>) -> &'static str {
    match side {
        Some(Side::Inputs) => "inputs",
        Some(Side::Outputs) => "outputs",
        Some(Side::Both) => "both",
        None => "-",
    }
}

fn sense_word(sense: &Sense) -> &'static str {
    match sense {
        Sense::High => "high",
        Sense::Low => "low",
        Sense::Posedge => "posedge",
        Sense::Negedge => "negedge",
    }
}

fn put_control(line: &mut String, control: &Option<(Name, Sense)>) -> Result<(), Fail> {
    match control {
        Some((signal, sense)) => {
            line.push('(')?;
            put(line, signal)?;
            line.push(' ')?;
            line.push_str(sense_word(sense))?;
            Ok(line.push(')')?)
        }
        None => Ok(line.push('-')?),
    }
}

fn yes(is: bool) -> &'static str {
    if is { "yes" } else { "no" }
}

/// A word, and then a name.
fn field(line: &mut String, word: &str, name: &Name) -> Result<(), Fail> {
    line.push_str(word)?;
    put(line, name)
}

/// A word, and then a name or `-`.
fn option(line: &mut String, word: &str, name: &Option<Name>) -> Result<(), Fail> {
    line.push_str(word)?;
    put_option(line, name)
}

fn show_isolation(line: &mut String, command: &Command) -> Result<(), Fail> {
    let Command::SetIsolation {
        name,
        domain,
        applies_to,
        elements,
        clamp,
        signal,
        sense,
        supply,
        location,
        no_isolation,
    } = command
    else {
        return Ok(());
    };
    field(line, "isolation ", name)?;
    field(line, " domain ", domain)?;
    line.push_str(" sides ")?;
    line.push_str(side_word(applies_to))?;
    line.push_str(" elements ")?;
    put_elements(line, elements)?;
    option(line, " clamp ", clamp)?;
    option(line, " signal ", signal)?;
    line.push_str(" sense ")?;
    line.push_str(sense.as_ref().map_or("-", sense_word))?;
    option(line, " supply ", supply)?;
    option(line, " location ", location)?;
    line.push_str(" none ")?;
    Ok(line.push_str(yes(*no_isolation))?)
}

fn show_retention(line: &mut String, command: &Command) -> Result<(), Fail> {
    let Command::SetRetention {
        name,
        domain,
        elements,
        supply,
        save,
        restore,
    } = command
    else {
        return Ok(());
    };
    field(line, "retention ", name)?;
    field(line, " domain ", domain)?;
    line.push_str(" elements ")?;
    put_elements(line, elements)?;
    option(line, " supply ", supply)?;
    line.push_str(" save ")?;
    put_control(line, save)?;
    line.push_str(" restore ")?;
    put_control(line, restore)
}

fn show_switch(line: &mut String, command: &Command) -> Result<(), Fail> {
    let Command::CreatePowerSwitch {
        name,
        domain,
        output,
        input,
        controls,
        on,
        off,
    } = command
    else {
        return Ok(());
    };
    field(line, "switch ", name)?;
    option(line, " domain ", domain)?;
    line.push_str(" output ")?;
    put_two(line, output)?;
    line.push_str(" input ")?;
    put_two(line, input)?;
    line.push_str(" controls ")?;
    put_twos(line, controls)?;
    field(line, " on (", &on.0)?;
    field(line, " ", &on.1)?;
    field(line, " ", &on.2)?;
    line.push_str(") off ")?;
    put_twos(line, off)
}

fn show_table(line: &mut String, command: &Command) -> Result<(), Fail> {
    match command {
        Command::AddPortState { port, states } => {
            field(line, "states ", port)?;
            line.push(' ')?;
            put_states(line, states)
        }
        Command::CreatePst { name, supplies } => {
            field(line, "table ", name)?;
            line.push(' ')?;
            put_list(line, supplies)
        }
        Command::AddPstState {
            name,
            table,
            states,
        } => {
            field(line, "row ", name)?;
            field(line, " of ", table)?;
            line.push(' ')?;
            put_list(line, states)
        }
        Command::Ignored { command, words } => {
            field(line, "ignored ", command)?;
            line.push(' ')?;
            put_list(line, words)
        }
        Command::CreatePowerSwitch { .. } => show_switch(line, command),
        Command::SetIsolation { .. } => show_isolation(line, command),
        _ => show_retention(line, command),
    }
}

fn show(line: &mut String, command: &Command) -> Result<(), Fail> {
    match command {
        Command::UpfVersion(word) => field(line, "version ", word),
        Command::SetDesignTop(top) => field(line, "top ", top),
        Command::CreatePowerDomain {
            name,
            elements,
            include_scope,
            primary,
        } => {
            field(line, "domain ", name)?;
            line.push_str(" elements ")?;
            put_elements(line, elements)?;
            line.push_str(" scope ")?;
            line.push_str(yes(*include_scope))?;
            option(line, " primary ", primary)
        }
        Command::CreateSupplyPort {
            name,
            direction,
            domain,
        } => {
            field(line, "port ", name)?;
            line.push_str(" direction ")?;
            line.push_str(flow_word(direction))?;
            option(line, " domain ", domain)
        }
        Command::CreateSupplyNet {
            name,
            domain,
            reuse,
        } => {
            field(line, "net ", name)?;
            option(line, " domain ", domain)?;
            line.push_str(" reuse ")?;
            Ok(line.push_str(yes(*reuse))?)
        }
        Command::ConnectSupplyNet { name, ports } => {
            field(line, "connect ", name)?;
            line.push(' ')?;
            put_list(line, ports)
        }
        Command::CreateSupplySet {
            name,
            power,
            ground,
        } => {
            field(line, "set ", name)?;
            option(line, " power ", power)?;
            option(line, " ground ", ground)
        }
        Command::SetDomainSupplyNet {
            name,
            power,
            ground,
        } => {
            field(line, "primary ", name)?;
            option(line, " power ", power)?;
            option(line, " ground ", ground)
        }
        _ => show_table(line, command),
    }
}

fn number(which: Which) -> &'static str {
    match which {
        Which::File => "file",
        Which::Nesting => "nesting",
        Which::Width => "width",
        Which::Inputs => "inputs",
    }
}

/// What `read_upf` answers, as the rows write it.
fn answered(alloc: Global, text: &[u8]) -> Result<String, Fail> {
    match read_upf(alloc, text) {
        Ok(intent) => {
            let mut lines = String::new(alloc);
            for (i, command) in intent.commands.as_slice().iter().enumerate() {
                if i > 0 {
                    lines.push('\n')?;
                }
                show(&mut lines, command)?;
            }
            Ok(lines)
        }
        Err(ReadFault::Syntax { at }) => Ok(format!(in alloc; "syntax {at}")?),
        Err(ReadFault::Limit { at, which }) => {
            Ok(format!(in alloc; "limit {at} {}", number(which))?)
        }
        Err(ReadFault::Unsupported { at, word }) => {
            let mut line = format!(in alloc; "unsupported {at} ")?;
            put(&mut line, &word)?;
            Ok(line)
        }
        Err(fault) => Err(fault)?,
    }
}

fn expect(rt: &impl Abort, alloc: Global, text: &[u8], wanted: &str) -> Result<(), Fail> {
    let lines = answered(alloc, text)?;
    assert_eq!(rt; lines.as_str(), wanted);
    Ok(())
}

fn expect_each(rt: &impl Abort, alloc: Global, rows: &[Row]) -> Result<(), Fail> {
    for row in rows {
        expect(rt, alloc, row.0, row.1)?;
    }
    Ok(())
}

#[test]
fn texts_and_names(rt: HostRuntime) -> Result<(), Fail> {
    expect_each(&rt, rt.alloc(), &TEXTS)?;
    expect_each(&rt, rt.alloc(), &NAMES)
}

#[test]
fn domains_and_supplies(rt: HostRuntime) -> Result<(), Fail> {
    expect_each(&rt, rt.alloc(), &DOMAINS)?;
    expect_each(&rt, rt.alloc(), &SUPPLIES)
}

#[test]
fn states_and_strategies(rt: HostRuntime) -> Result<(), Fail> {
    expect_each(&rt, rt.alloc(), &STATES)?;
    expect_each(&rt, rt.alloc(), &STRATEGIES)
}

static DESIGN: &[u8] = b"set_design_top top
create_power_domain PD -include_scope
create_supply_port VDD -direction in
create_supply_port VSS -direction in
create_supply_net VDD -domain PD
create_supply_net VSS -domain PD
connect_supply_net VDD -ports VDD
connect_supply_net VSS -ports VSS
set_domain_supply_net PD -primary_power_net VDD -primary_ground_net VSS
add_port_state VDD -state {HV 1.0} -state {OFF off}
add_port_state VSS -state {GND 0.0}
create_supply_net VDDS -domain PD
create_power_domain PD_A -elements {u_a}
set_domain_supply_net PD_A -primary_power_net VDDS -primary_ground_net VSS
create_supply_set SS -function {power VDD} -function {ground VSS}
create_power_switch sw -domain PD -output_supply_port {out VDDS} -input_supply_port {in VDD} -control_port {c slp} -on_state {on in {!c}} -off_state {off {c}}
add_port_state sw/out -state {HV 1.0} -state {OFF off}
set_isolation i1 -domain PD_A -applies_to outputs -clamp_value 0 -isolation_signal iso -isolation_sense high -isolation_supply SS
set_retention r1 -domain PD_A -retention_supply SS -save_signal {save posedge} -restore_signal {rest high}
create_pst T -supplies {VDD VDDS VSS}
add_pst_state RUN -pst T -state {HV HV GND}
add_pst_state SLEEP -pst T -state {HV OFF GND}
";

static DESIGN_TREE: &str = "top top
domain PD elements - scope yes primary -
port VDD direction in domain -
port VSS direction in domain -
net VDD domain PD reuse no
net VSS domain PD reuse no
connect VDD [VDD]
connect VSS [VSS]
primary PD power VDD ground VSS
states VDD [(HV [1.0]) (OFF [off])]
states VSS [(GND [0.0])]
net VDDS domain PD reuse no
domain PD_A elements [u_a] scope no primary -
primary PD_A power VDDS ground VSS
set SS power VDD ground VSS
switch sw domain PD output (out VDDS) input (in VDD) controls [(c slp)] on (on in !c) off [(off c)]
states sw/out [(HV [1.0]) (OFF [off])]
isolation i1 domain PD_A sides outputs elements - clamp 0 signal iso sense high supply SS location - none no
retention r1 domain PD_A elements - supply SS save (save posedge) restore (rest high)
table T [VDD VDDS VSS]
row RUN of T [HV HV GND]
row SLEEP of T [HV OFF GND]";

#[test]
fn a_switched_design(rt: HostRuntime) -> Result<(), Fail> {
    expect(&rt, rt.alloc(), DESIGN, DESIGN_TREE)
}
