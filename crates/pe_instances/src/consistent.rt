//! Whether the names of a netlist are consistent.

ghost use Rattle.std.specs.Prelude.{◌≡◌, ◌++◌, IfOk, OnOk};
ghost use Rattle.std.specs.List.{list_all, flat_map};
ghost use Rattle.pe_instances.specs.Form.{pins as pins_of_instance, is_declared as is_declared_in, is_named as is_named_in, are_named_all as are_named_all_in, nets_on, are_connected as are_connected_in};

use crate::names::{driven_names, nets};
use crate::parts::{Connection, Instance, Netlist};
use pe_base::{Name, NameSet, Want, all_among, are_distinct};
use sqlite_items::Items;
use std::alloc::Global;

/// The pins that an instance connects.
fn pins(alloc: Global, i: &Instance) -> Result<Items<Name>, Want>
    ensures { IfOk result (λ names. names ≡ pins_of_instance i.now) }
{
    let mut names = Items::new(alloc);
    for c in i.connections.as_slice() {
        let name = c.pin.copy(alloc)?;
        names.push(name)?;
    }
    Ok(names)
}

/// Whether the net of a connection, if it has one, is known.
fn is_declared(known: &NameSet, c: &Connection) -> bool
    ensures { result ≡ is_declared_in known.now c.now.net }
{
    match &c.net {
        None => true,
        Some(net) => known.contains(net.bytes()),
    }
}

/// Whether the nets that an instance names are known.
fn are_declared(known: &NameSet, i: &Instance) -> bool
    ensures { result ≡ list_all (λ c. is_declared_in known.now c.net) i.now.connections }
{
    i.connections
        .as_slice()
        .iter()
        .all(|c| is_declared(known, c))
}

/// Whether an instance connects a pin once, and to nets that are known.
fn is_named(alloc: Global, known: &NameSet, i: &Instance) -> Result<bool, Want>
    ensures { IfOk result (λ b. b ≡ is_named_in known.now i.now) }
{
    let pins = pins(alloc, i)?;
    Ok(are_distinct(alloc, pins.as_slice())? && are_declared(known, i))
}

/// Whether instances connect a pin once, and to nets that are known.
fn are_named(alloc: Global, known: &NameSet, instances: &[Instance]) -> Result<bool, Want>
    ensures { IfOk result (λ b. b ≡ list_all (is_named_in known.now) instances.now) }
{
    for i in instances {
        if !is_named(alloc, known, i)? {
            return Ok(false);
        }
    }
    Ok(true)
}

/// Whether the names of nets differ, an instance connects a pin once, and the nets that it names are declared.
pub(crate) fn are_named_all(alloc: Global, n: &Netlist) -> Result<bool, Want>
    ensures { IfOk result (λ b. b ≡ are_named_all_in n.now) }
{
    let names = nets(alloc, n)?;
    if !are_distinct(alloc, names.as_slice())? {
        return Ok(false);
    }
    let known = NameSet::of(alloc, names.as_slice())?;
    let named = are_named(alloc, &known, n.instances.as_slice())?;
    Ok(named)
}

/// Adds the nets that the pins of an instance are on.
fn add_nets(alloc: Global, found: &mut Items<Name>, i: &Instance) -> Result<(), Want>
    ensures { OnOk result (found.new ≡ found.old ++ nets_on i.now) }
{
    for c in i.connections.as_slice() {
        if let Some(net) = &c.net {
            let net = net.copy(alloc)?;
            found.push(net)?;
        }
    }
    Ok(())
}

/// The nets that the pins of instances are on.
fn connected(alloc: Global, instances: &[Instance]) -> Result<Items<Name>, Want>
    ensures { IfOk result (λ nets. nets ≡ flat_map nets_on instances.now) }
{
    let mut found = Items::new(alloc);
    for i in instances {
        add_nets(alloc, &mut found, i)?;
    }
    Ok(found)
}

/// Whether each output and wire has a pin on it.
pub(crate) fn are_connected(alloc: Global, n: &Netlist) -> Result<bool, Want>
    ensures { IfOk result (λ b. b ≡ are_connected_in n.now) }
{
    let connected = connected(alloc, n.instances.as_slice())?;
    let driven = driven_names(alloc, n)?;
    all_among(alloc, connected.as_slice(), driven.as_slice())
}
