//! Whether a tree is of the form, and its netlist.

ghost use Rattle.std.specs.Prelude.{◌≡◌, ◌++◌, cond, map, IfOk, OnOk};
ghost use Rattle.std.specs.List.{list_all, flat_map};
ghost use Rattle.std.specs.Option.{option_copied};
ghost use Rattle.pe_assigns.specs.Form.{is_plain_port as is_plain_port_of, wires_in};
ghost use Rattle.pe_instances.specs.Form.{is_whole, net_of, net_or_open, is_net_or_open, are_named, is_plain_item, connection_of, connections_of, instance_of, instances_in, netlist_of, netlist_in, is_form, is_net_form};

use crate::consistent::{are_connected, are_named_all};
use crate::parts::{Connection, Instance, Netlist};
use pe_assigns::{input_names, is_plain_port, output_names, wire_of};
use pe_base::{Name, Want};
use pe_verilog_ast::{Ex, Item, Module, Pins, Select, Source};
use sqlite_items::Items;
use std::alloc::Global;

/// Whether the whole net is meant.
#[tactic(auto, using(crate::proofs::Layers::layers))]
fn is_whole(select: &Select) -> bool
    ensures { result ≡ is_whole select.now }
{
    match select {
        Select::Whole => true,
        Select::Bit(_) => false,
        Select::Part(_, _) => false,
    }
}

/// The net that an expression is, if it is a whole one.
#[tactic(auto, using(crate::proofs::Layers::layers))]
fn net_of(e: &Ex) -> Option<&Name>
    ensures { option_copied result ≡ net_of e.now }
{
    match e {
        Ex::Net { name, select } => { if is_whole(select) { Some(name) } else { None } }
        Ex::Number { .. } => None,
        Ex::Join(_) => None,
        Ex::Repeat { .. } => None,
        Ex::Unary(_, _) => None,
        Ex::Chain { .. } => None,
        Ex::Choose(_, _, _) => None,
    }
}

/// Whether what a pin is given is a whole net, or nothing.
fn is_net_or_open(e: &Option<Ex>) -> bool
    ensures { result ≡ is_net_or_open e.now }
{
    match e {
        None => true,
        Some(e) => net_of(e).is_some(),
    }
}

/// Whether each pin of a list is given a whole net, or nothing.
fn are_nets_or_open(list: &[(Name, Option<Ex>)]) -> bool
    ensures { result ≡ list_all (λ c. is_net_or_open c.1) list.now }
{
    list.iter().all(|c| is_net_or_open(&c.1))
}

/// Whether an instance is connected by named pins, each on a whole net or on nothing.
fn are_named(pins: &Option<Pins>) -> bool
    ensures { result ≡ are_named pins.now }
{
    match pins {
        None => true,
        Some(Pins::Named(list)) => are_nets_or_open(list.as_slice()),
        Some(Pins::Placed(_)) => false,
    }
}

/// Whether each of some instances is so connected.
fn are_named_each(instances: &[(Name, Option<Pins>)]) -> bool
    ensures { result ≡ list_all (λ i. are_named i.1) instances.now }
{
    instances.iter().all(|i| are_named(&i.1))
}

/// Whether an item is a wire, or instances without parameters that are connected by names.
fn is_plain_item(item: &Item) -> bool
    ensures { result ≡ is_plain_item item.now }
{
    match item {
        Item::Instances {
            module: _,
            params,
            instances,
        } => params.is_none() && are_named_each(instances.as_slice()),
        _ => wire_of(item).is_some(),
    }
}

/// Whether each port of the head is declared there, with one bit, as an input or an output.
fn are_plain_ports(m: &Module) -> bool
    ensures { result ≡ list_all is_plain_port_of m.now.ports }
{
    m.ports.as_slice().iter().all(|port| is_plain_port(port))
}

/// Whether each item is a wire, or instances.
fn are_plain_items(m: &Module) -> bool
    ensures { result ≡ list_all is_plain_item m.now.items }
{
    m.items.as_slice().iter().all(|item| is_plain_item(item))
}

/// The net that a pin is given, if it is given one.
fn make_net(alloc: Global, e: &Option<Ex>) -> Result<Option<Name>, Want>
    ensures { IfOk result (λ net. net ≡ net_or_open e.now) }
{
    match e {
        None => Ok(None),
        Some(e) => match net_of(e) {
            None => Ok(None),
            Some(name) => {
                let name = name.copy(alloc)?;
                Ok(Some(name))
            }
        },
    }
}

/// A connection of an instance.
fn make_connection(alloc: Global, c: &(Name, Option<Ex>)) -> Result<Connection, Want>
    ensures { IfOk result (λ made. made ≡ connection_of c.now) }
{
    let pin = c.0.copy(alloc)?;
    let net = make_net(alloc, &c.1)?;
    Ok(Connection { pin, net })
}

/// The connections by named pins.
fn make_named(alloc: Global, list: &[(Name, Option<Ex>)]) -> Result<Items<Connection>, Want>
    ensures { IfOk result (λ made. made ≡ map connection_of list.now) }
{
    let mut made = Items::new(alloc);
    for c in list {
        let connection = make_connection(alloc, c)?;
        made.push(connection)?;
    }
    Ok(made)
}

/// The connections of an instance.
fn make_connections(alloc: Global, pins: &Option<Pins>) -> Result<Items<Connection>, Want>
    ensures { IfOk result (λ made. made ≡ connections_of pins.now) }
{
    match pins {
        Some(Pins::Named(list)) => make_named(alloc, list.as_slice()),
        Some(Pins::Placed(_)) => Ok(Items::new(alloc)),
        None => Ok(Items::new(alloc)),
    }
}

/// An instance of a cell.
fn make_instance(alloc: Global, cell: &Name, i: &(Name, Option<Pins>)) -> Result<Instance, Want>
    ensures { IfOk result (λ made. made ≡ instance_of cell.now i.now) }
{
    let cell = cell.copy(alloc)?;
    let connections = make_connections(alloc, &i.1)?;
    Ok(Instance { cell, connections })
}

/// Adds instances of a cell.
fn add_listed(
    alloc: Global,
    made: &mut Items<Instance>,
    cell: &Name,
    list: &[(Name, Option<Pins>)],
) -> Result<(), Want>
    ensures { OnOk result (made.new ≡ made.old ++ map (instance_of cell.now) list.now) }
{
    for i in list {
        let instance = make_instance(alloc, cell, i)?;
        made.push(instance)?;
    }
    Ok(())
}

/// Adds the instances that an item has.
fn add_instances(alloc: Global, made: &mut Items<Instance>, item: &Item) -> Result<(), Want>
    ensures { OnOk result (made.new ≡ made.old ++ instances_in item.now) }
{
    match item {
        Item::Instances {
            module,
            params: _,
            instances,
        } => add_listed(alloc, made, module, instances.as_slice()),
        _ => Ok(()),
    }
}

/// The instances of a module.
fn make_instances(alloc: Global, items: &[Item]) -> Result<Items<Instance>, Want>
    ensures { IfOk result (λ made. made ≡ flat_map instances_in items.now) }
{
    let mut made = Items::new(alloc);
    for item in items {
        add_instances(alloc, &mut made, item)?;
    }
    Ok(made)
}

/// The wires of a module.
fn make_wires(alloc: Global, items: &[Item]) -> Result<Items<Name>, Want>
    ensures { IfOk result (λ names. names ≡ flat_map wires_in items.now) }
{
    let mut names = Items::new(alloc);
    for item in items {
        if let Some(name) = wire_of(item) {
            let name = name.copy(alloc)?;
            names.push(name)?;
        }
    }
    Ok(names)
}

/// What a module has.
fn make_netlist(alloc: Global, m: &Module) -> Result<Netlist, Want>
    ensures { IfOk result (λ n. n ≡ netlist_of m.now) }
{
    let name = m.name.copy(alloc)?;
    let inputs = input_names(alloc, m)?;
    let outputs = output_names(alloc, m)?;
    let wires = make_wires(alloc, m.items.as_slice())?;
    let instances = make_instances(alloc, m.items.as_slice())?;
    Ok(Netlist {
        name,
        inputs,
        outputs,
        wires,
        instances,
    })
}

/// The netlist of a module, if it is of the form.
fn read_module(alloc: Global, m: &Module) -> Result<Option<Netlist>, Want>
    ensures { IfOk result (λ found. found ≡ cond (is_form m.now) (Some (netlist_of m.now)) None) }
{
    if !m.params.is_empty() {
        return Ok(None);
    }
    if !are_plain_ports(m) {
        return Ok(None);
    }
    if !are_plain_items(m) {
        return Ok(None);
    }
    let netlist = make_netlist(alloc, m)?;
    if !are_named_all(alloc, &netlist)? {
        return Ok(None);
    }
    if are_connected(alloc, &netlist)? {
        Ok(Some(netlist))
    } else {
        Ok(None)
    }
}

/// The netlist of a text, exactly where it is of the form that `is_net_form` tests.
pub fn read_netlist(alloc: Global, source: &Source) -> Result<Option<Netlist>, Want>
    ensures { IfOk result (λ found. found ≡ netlist_in source.now.modules) }
{
    match source.modules.as_slice() {
        [m] => read_module(alloc, m),
        _ => Ok(None),
    }
}

/// Whether a text has one module, and it is a gate netlist: no parameters; ports of one bit, declared in the head as inputs and
/// outputs; wires of one bit; instances without parameters, connected by named pins, each to a whole net or to nothing. The
/// names of nets differ, an instance connects a pin once, the nets that it names are declared, and each output and wire has a
/// pin on it.
pub fn is_net_form(alloc: Global, source: &Source) -> Result<bool, Want>
    ensures { IfOk result (λ b. b ≡ is_net_form source.now) }
{
    let found = read_netlist(alloc, source)?;
    Ok(found.is_some())
}
