//! The plan of an intent, command by command.

ghost use Rattle.std.specs.Prelude.{◌≡◌, ◌++◌, ◌∷◌, [], map, IfOk, OnOk};
ghost use Rattle.pe_supply.specs.declared.plan.Use.TheVariants.{Supply, Port, Set, Table};
ghost use Rattle.pe_supply.specs.Plans.{no_plan, output_name, given, is_off, port_state, tie_to, connect_plan, set_plan, switch_plan, plan_by, joined, plan_of};

use crate::plan::{Plan, PortState, RowText, SetText, SwitchText, TableText, Use};
use pe_base::{Name, Want};
use pe_upf_read::Command;
use sqlite_items::Items;
use std::alloc::Global;

impl Plan {
    /// The plan of no command.
    fn new(alloc: Global) -> Plan
        ensures { result ≡ no_plan }
    {
        Plan {
            names: Items::new(alloc),
            ports: Items::new(alloc),
            nets: Items::new(alloc),
            ties: Items::new(alloc),
            uses: Items::new(alloc),
            sets: Items::new(alloc),
            tables: Items::new(alloc),
            states: Items::new(alloc),
            rows: Items::new(alloc),
            switches: Items::new(alloc),
        }
    }

    /// Adds what another plan says.
    fn join(&mut self, more: Plan) -> Result<(), Want>
        ensures { OnOk result (self.new ≡ joined self.old more) }
    {
        let Plan {
            names,
            ports,
            nets,
            ties,
            uses,
            sets,
            tables,
            states,
            rows,
            switches,
        } = more;
        self.names.append(names)?;
        self.ports.append(ports)?;
        self.nets.append(nets)?;
        self.ties.append(ties)?;
        self.uses.append(uses)?;
        self.sets.append(sets)?;
        self.tables.append(tables)?;
        self.states.append(states)?;
        self.rows.append(rows)?;
        self.switches.append(switches)?;
        Ok(())
    }
}

/// The same names.
fn copy_names(alloc: Global, names: &[Name]) -> Result<Items<Name>, Want>
    ensures { IfOk result (λ copy. copy ≡ names.now) }
{
    let mut copy = Items::new(alloc);
    for name in names {
        copy.push(name.copy(alloc)?)?;
    }
    Ok(copy)
}

/// The same pair of names.
fn copy_pair(alloc: Global, pair: &(Name, Name)) -> Result<(Name, Name), Want>
    ensures { IfOk result (λ copy. copy ≡ pair.now) }
{
    let first = pair.0.copy(alloc)?;
    let second = pair.1.copy(alloc)?;
    Ok((first, second))
}

/// The same pairs of names.
pub(crate) fn copy_pairs(alloc: Global, pairs: &[(Name, Name)]) -> Result<Items<(Name, Name)>, Want>
    ensures { IfOk result (λ copy. copy ≡ pairs.now) }
{
    let mut copy = Items::new(alloc);
    for pair in pairs {
        copy.push(copy_pair(alloc, pair)?)?;
    }
    Ok(copy)
}

/// The second names of pairs.
fn second_names(alloc: Global, pairs: &[(Name, Name)]) -> Result<Items<Name>, Want>
    ensures { IfOk result (λ names. names ≡ map (λ state. state.1) pairs.now) }
{
    let mut names = Items::new(alloc);
    for pair in pairs {
        names.push(pair.1.copy(alloc)?)?;
    }
    Ok(names)
}

/// The same name, where one is written.
fn copy_option(alloc: Global, name: &Option<Name>) -> Result<Option<Name>, Want>
    ensures { IfOk result (λ copy. copy ≡ name.now) }
{
    match name {
        Some(name) => {
            let copy = name.copy(alloc)?;
            Ok(Some(copy))
        }
        None => Ok(None),
    }
}

/// The name of a switch's output port.
pub(crate) fn output_name(alloc: Global, switch: &[u8], port: &[u8]) -> Result<Name, Want>
    ensures { IfOk result (λ name. name ≡ output_name switch.now port.now) }
{
    let mut bytes = Vec::from_slice(alloc, switch)?;
    bytes.push(b'/')?;
    bytes.extend_from_slice(port)?;
    let name = Name::new(alloc, bytes.as_slice())?;
    Ok(name)
}

/// Adds the use of a supply, where one is written.
fn use_supply(alloc: Global, uses: &mut Items<Use>, name: &Option<Name>) -> Result<(), Want>
    ensures { OnOk result (uses.new ≡ uses.old ++ given (λ n. Supply n) name.now) }
{
    if let Some(name) = name {
        let name = name.copy(alloc)?;
        uses.push(Use::Supply(name))?;
    }
    Ok(())
}

/// The uses of supplies.
fn uses_of_supplies(alloc: Global, names: &[Name]) -> Result<Items<Use>, Want>
    ensures { IfOk result (λ uses. uses ≡ map (λ n. Supply n) names.now) }
{
    let mut uses = Items::new(alloc);
    for name in names {
        let name = name.copy(alloc)?;
        uses.push(Use::Supply(name))?;
    }
    Ok(uses)
}

/// The uses of ports.
fn uses_of_ports(alloc: Global, names: &[Name]) -> Result<Items<Use>, Want>
    ensures { IfOk result (λ uses. uses ≡ map (λ port. Port port) names.now) }
{
    let mut uses = Items::new(alloc);
    for name in names {
        let name = name.copy(alloc)?;
        uses.push(Use::Port(name))?;
    }
    Ok(uses)
}

/// Ports on a net.
fn ties_to(alloc: Global, net: &Name, ports: &[Name]) -> Result<Items<(Name, Name)>, Want>
    ensures { IfOk result (λ ties. ties ≡ map (tie_to net.now) ports.now) }
{
    let mut ties = Items::new(alloc);
    for port in ports {
        let port = port.copy(alloc)?;
        let net = net.copy(alloc)?;
        ties.push((port, net))?;
    }
    Ok(ties)
}

/// The plan of a command that speaks of a supply set alone.
fn plan_set_use(alloc: Global, set: &Option<Name>) -> Result<Plan, Want>
    ensures { IfOk result (λ p. p ≡ record no_plan { uses = given (λ n. Set n) set.now }) }
{
    let mut plan = Plan::new(alloc);
    if let Some(name) = set {
        let name = name.copy(alloc)?;
        plan.uses.push(Use::Set(name))?;
    }
    Ok(plan)
}

fn plan_port(alloc: Global, name: &Name) -> Result<Plan, Want>
    ensures { IfOk result (λ p. p ≡ record no_plan { names = name.now ∷ []; ports = name.now ∷ [] }) }
{
    let mut plan = Plan::new(alloc);
    plan.names.push(name.copy(alloc)?)?;
    plan.ports.push(name.copy(alloc)?)?;
    Ok(plan)
}

fn plan_net(alloc: Global, name: &Name) -> Result<Plan, Want>
    ensures { IfOk result (λ p. p ≡ record no_plan { names = name.now ∷ []; nets = name.now ∷ [] }) }
{
    let mut plan = Plan::new(alloc);
    plan.names.push(name.copy(alloc)?)?;
    plan.nets.push(name.copy(alloc)?)?;
    Ok(plan)
}

fn plan_connection(alloc: Global, net: &Name, ports: &[Name]) -> Result<Plan, Want>
    ensures { IfOk result (λ p. p ≡ connect_plan net.now ports.now) }
{
    let mut plan = Plan::new(alloc);
    plan.ties = ties_to(alloc, net, ports)?;
    let net = net.copy(alloc)?;
    plan.uses.push(Use::Supply(net))?;
    plan.uses.append(uses_of_ports(alloc, ports)?)?;
    Ok(plan)
}

fn plan_set(
    alloc: Global,
    name: &Name,
    power: &Option<Name>,
    ground_net: &Option<Name>,
) -> Result<Plan, Want>
    ensures { IfOk result (λ p. p ≡ set_plan name.now power.now ground_net.now) }
{
    let mut plan = Plan::new(alloc);
    plan.sets.push(SetText {
        name: name.copy(alloc)?,
        power_net: copy_option(alloc, power)?,
        ground_net: copy_option(alloc, ground_net)?,
    })?;
    use_supply(alloc, &mut plan.uses, power)?;
    use_supply(alloc, &mut plan.uses, ground_net)?;
    Ok(plan)
}

fn plan_primary(
    alloc: Global,
    power: &Option<Name>,
    ground_net: &Option<Name>,
) -> Result<Plan, Want>
    ensures { IfOk result (λ p. p ≡ record no_plan { uses = given (λ n. Supply n) power.now ++ given (λ n. Supply n) ground_net.now }) }
{
    let mut plan = Plan::new(alloc);
    use_supply(alloc, &mut plan.uses, power)?;
    use_supply(alloc, &mut plan.uses, ground_net)?;
    Ok(plan)
}

/// A switch as it is written.
fn switch_text(
    alloc: Global,
    name: &Name,
    output: &(Name, Name),
    input: &(Name, Name),
    controls: &[(Name, Name)],
    on: &Name,
    off: &[(Name, Name)],
) -> Result<SwitchText, Want>
    ensures { IfOk result (λ s. s ≡ record { name = name.now; output = output.now; input = input.now; controls = controls.now; on = on.now; off = map (λ state. state.1) off.now }) }
{
    Ok(SwitchText {
        name: name.copy(alloc)?,
        output: copy_pair(alloc, output)?,
        input: copy_pair(alloc, input)?,
        controls: copy_pairs(alloc, controls)?,
        on: on.copy(alloc)?,
        off: second_names(alloc, off)?,
    })
}

/// The uses of a switch, whose on state names the port.
fn uses_of_switch(alloc: Global, switch: &SwitchText, port: &Name) -> Result<Items<Use>, Want>
    ensures { IfOk result (λ uses. uses ≡ (switch_plan switch.now port.now).uses) }
{
    let output = switch.output.1.copy(alloc)?;
    let input = switch.input.1.copy(alloc)?;
    let port = port.copy(alloc)?;
    let own = switch.input.0.copy(alloc)?;
    let mut uses = Items::new(alloc);
    uses.push(Use::Supply(output))?;
    uses.push(Use::Supply(input))?;
    uses.push(Use::Input(port, own))?;
    Ok(uses)
}

/// The name alone.
fn one_name(alloc: Global, name: &Name) -> Result<Items<Name>, Want>
    ensures { IfOk result (λ names. names ≡ name.now ∷ []) }
{
    let mut names = Items::new(alloc);
    names.push(name.copy(alloc)?)?;
    Ok(names)
}

/// The tie of a port alone.
fn one_tie(alloc: Global, port: &Name, net: &Name) -> Result<Items<(Name, Name)>, Want>
    ensures { IfOk result (λ ties. ties ≡ (port.now, net.now) ∷ []) }
{
    let port = port.copy(alloc)?;
    let net = net.copy(alloc)?;
    let mut ties = Items::new(alloc);
    ties.push((port, net))?;
    Ok(ties)
}

/// The switch alone.
fn one_switch(alloc: Global, switch: SwitchText) -> Result<Items<SwitchText>, Want>
    ensures { IfOk result (λ switches. switches ≡ switch ∷ []) }
{
    let mut switches = Items::new(alloc);
    switches.push(switch)?;
    Ok(switches)
}

fn plan_switch(alloc: Global, switch: SwitchText, port: &Name) -> Result<Plan, Want>
    ensures { IfOk result (λ p. p ≡ switch_plan switch port.now) }
{
    let output = output_name(alloc, switch.name.bytes(), switch.output.0.bytes())?;
    let names = one_name(alloc, &output)?;
    let ports = one_name(alloc, &output)?;
    let ties = one_tie(alloc, &output, &switch.output.1)?;
    let uses = uses_of_switch(alloc, &switch, port)?;
    let switches = one_switch(alloc, switch)?;
    Ok(Plan {
        names,
        ports,
        nets: Items::new(alloc),
        ties,
        uses,
        sets: Items::new(alloc),
        tables: Items::new(alloc),
        states: Items::new(alloc),
        rows: Items::new(alloc),
        switches,
    })
}

/// Whether the value of a port's state is off.
fn is_off(words: &[Name]) -> bool
    ensures { result ≡ is_off words.now }
{
    match words {
        [word] => word.is(b"off"),
        _ => false,
    }
}

/// The states of a port.
fn port_states(
    alloc: Global,
    port: &Name,
    states: &[(Name, Items<Name>)],
) -> Result<Items<PortState>, Want>
    ensures { IfOk result (λ all. all ≡ map (port_state port.now) states.now) }
{
    let mut all = Items::new(alloc);
    for state in states {
        all.push(PortState {
            port: port.copy(alloc)?,
            name: state.0.copy(alloc)?,
            on: !is_off(state.1.as_slice()),
        })?;
    }
    Ok(all)
}

fn plan_states(alloc: Global, port: &Name, states: &[(Name, Items<Name>)]) -> Result<Plan, Want>
    ensures { IfOk result (λ p. p ≡ record no_plan { uses = Port port.now ∷ []; states = map (port_state port.now) states.now }) }
{
    let mut plan = Plan::new(alloc);
    let name = port.copy(alloc)?;
    plan.uses.push(Use::Port(name))?;
    plan.states = port_states(alloc, port, states)?;
    Ok(plan)
}

fn plan_table(alloc: Global, name: &Name, supplies: &[Name]) -> Result<Plan, Want>
    ensures { IfOk result (λ p. p ≡ record no_plan { tables = record { name = name.now; supplies = supplies.now } ∷ []; uses = map (λ n. Supply n) supplies.now }) }
{
    let mut plan = Plan::new(alloc);
    plan.tables.push(TableText {
        name: name.copy(alloc)?,
        supplies: copy_names(alloc, supplies)?,
    })?;
    plan.uses = uses_of_supplies(alloc, supplies)?;
    Ok(plan)
}

fn plan_row(alloc: Global, name: &Name, table: &Name, words: &[Name]) -> Result<Plan, Want>
    ensures { IfOk result (λ p. p ≡ record no_plan { rows = record { name = name.now; words = words.now } ∷ []; uses = Table table.now ∷ [] }) }
{
    let mut plan = Plan::new(alloc);
    plan.rows.push(RowText {
        name: name.copy(alloc)?,
        words: copy_names(alloc, words)?,
    })?;
    let table = table.copy(alloc)?;
    plan.uses.push(Use::Table(table))?;
    Ok(plan)
}

/// The plan of a command.
fn plan_by(alloc: Global, command: &Command) -> Result<Plan, Want>
    ensures { IfOk result (λ p. p ≡ plan_by command.now) }
{
    match command {
        Command::UpfVersion(_) => Ok(Plan::new(alloc)),
        Command::SetDesignTop(_) => Ok(Plan::new(alloc)),
        Command::Ignored { .. } => Ok(Plan::new(alloc)),
        Command::CreatePowerDomain { primary, .. } => plan_set_use(alloc, primary),
        Command::CreateSupplyPort { name, .. } => plan_port(alloc, name),
        Command::CreateSupplyNet { name, .. } => plan_net(alloc, name),
        Command::ConnectSupplyNet { name, ports } => {
            plan_connection(alloc, name, ports.as_slice())
        }
        Command::CreateSupplySet {
            name,
            power,
            ground,
        } => plan_set(alloc, name, power, ground),
        Command::SetDomainSupplyNet { power, ground, .. } => plan_primary(alloc, power, ground),
        Command::CreatePowerSwitch {
            name,
            output,
            input,
            controls,
            on,
            off,
            ..
        } => {
            let (controls, off) = (controls.as_slice(), off.as_slice());
            let switch = switch_text(alloc, name, output, input, controls, &on.2, off)?;
            plan_switch(alloc, switch, &on.1)
        }
        Command::AddPortState { port, states } => plan_states(alloc, port, states.as_slice()),
        Command::CreatePst { name, supplies } => plan_table(alloc, name, supplies.as_slice()),
        Command::AddPstState {
            name,
            table,
            states,
        } => plan_row(alloc, name, table, states.as_slice()),
        Command::SetIsolation { supply, .. } => plan_set_use(alloc, supply),
        Command::SetRetention { supply, .. } => plan_set_use(alloc, supply),
    }
}

/// The plan of an intent.
pub(crate) fn plan_of(alloc: Global, commands: &[Command]) -> Result<Plan, Want>
    ensures { IfOk result (λ p. p ≡ plan_of commands.now) }
{
    let mut plan = Plan::new(alloc);
    for command in commands {
        plan.join(plan_by(alloc, command)?)?;
    }
    Ok(plan)
}
