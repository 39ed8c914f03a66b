//! Whether a circuit is wired.

ghost use Rattle.std.specs.Prelude.{◌≡◌, ◌∷◌, ◌++◌, ◌&&◌, List, IfOk, OnOk};
ghost use Rattle.std.specs.List.{list_all};
ghost use Rattle.pe_base.specs.Names.{HasSameNames};
ghost use Rattle.pe_instances.specs.declared.parts.Instance.{Instance as Used};
ghost use Rattle.pe_instances.specs.Pins.{net_driven as net_driven_by, net_list, nets_driven as nets_driven_by, targets as targets_of};
ghost use Rattle.pe_instances.specs.Wired.{is_plain_cell as is_plain_view, supply_names as supply_names_of, known_with, are_ordered as are_ordered_from, is_driven_once as is_driven_once_in, are_given as are_given_in, is_wired as is_wired_circuit};

use crate::joining::is_joined;
use crate::names::{driven_names, nets};
use crate::parts::{Circuit, Instance, Netlist};
use crate::pins::{net_driven, view_of};
use crate::plain::is_plain_cell;
use pe_base::{Name, NameSet, Want, all_among, are_distinct};
use pe_cells::{CellView, Signal};
use pe_nets::NameIndex;
use sqlite_items::Items;
use std::alloc::Global;

/// Adds the net that a pin drives, if it drives one, to those that are known.
fn learn_net<'a>(
    known: &mut NameSet<'a>,
    instance: &'a Instance,
    signal: &Signal,
) -> Result<(), Want>
    ensures { OnOk result (HasSameNames known.new (known_with (net_list (net_driven_by instance.now signal.now)) known.old)) }
{
    if let Some(net) = net_driven(instance, signal) {
        known.insert(net.bytes())?;
    }
    Ok(())
}

/// Adds the nets that an instance drives to those that are known.
fn learn<'a>(known: &mut NameSet<'a>, instance: &'a Instance, view: &CellView) -> Result<(), Want>
    ensures { OnOk result (HasSameNames known.new (known_with (nets_driven_by instance.now (Some view.now)) known.old)) }
{
    for signal in view.signals.as_slice() {
        learn_net(known, instance, signal)?;
    }
    Ok(())
}

/// Whether an instance is joined over what is known; what it drives is known then.
fn admit<'a>(
    c: &'a Circuit,
    cells: &NameIndex,
    ports: &NameSet,
    known: &mut NameSet<'a>,
    instance: &'a Instance,
) -> Result<bool, Want>
    requires cells { cells.now ≡ c.now.cells }
    requires ports { HasSameNames ports.now (supply_names_of c.now) }
    ensures { IfOk result (λ b. (more : List Used) → are_ordered_from c.now known.old (instance.now ∷ more) ≡ (b && are_ordered_from c.now known.new more)) }
{
    match view_of(c, cells, instance.cell.bytes()) {
        None => Ok(false),
        Some(view) => {
            if !is_joined(ports, known, instance, view) {
                return Ok(false);
            }
            learn(known, instance, view)?;
            Ok(true)
        }
    }
}

/// The names of the ports of supplies.
fn supply_names(alloc: Global, c: &Circuit) -> Result<Items<Name>, Want>
    ensures { IfOk result (λ names. names ≡ supply_names_of c.now) }
{
    let mut names = Items::new(alloc);
    for port in c.supplies.as_slice() {
        let name = port.name.copy(alloc)?;
        names.push(name)?;
    }
    Ok(names)
}

/// Whether each instance is joined over what is given a value and what instances before it drive.
fn are_ordered(alloc: Global, c: &Circuit, cells: &NameIndex) -> Result<bool, Want>
    requires { cells.now ≡ c.now.cells }
    ensures { IfOk result (λ b. b ≡ are_ordered_from c.now c.now.given c.now.netlist.instances) }
{
    let names = supply_names(alloc, c)?;
    let ports = NameSet::of(alloc, names.as_slice())?;
    let mut known = NameSet::of(alloc, c.given.as_slice())?;
    for instance in c.netlist.instances.as_slice() {
        if !admit(c, cells, &ports, &mut known, instance)? {
            return Ok(false);
        }
    }
    Ok(true)
}

/// Adds the nets that an instance drives.
fn add_driven(
    alloc: Global,
    names: &mut Items<Name>,
    instance: &Instance,
    view: &CellView,
) -> Result<(), Want>
    ensures { OnOk result (names.new ≡ names.old ++ nets_driven_by instance.now (Some view.now)) }
{
    for signal in view.signals.as_slice() {
        if let Some(net) = net_driven(instance, signal) {
            let name = net.copy(alloc)?;
            names.push(name)?;
        }
    }
    Ok(())
}

/// The nets that cells drive, in the order of the instances.
fn targets(alloc: Global, c: &Circuit, cells: &NameIndex) -> Result<Items<Name>, Want>
    requires { cells.now ≡ c.now.cells }
    ensures { IfOk result (λ names. names ≡ targets_of c.now) }
{
    let mut names = Items::new(alloc);
    for instance in c.netlist.instances.as_slice() {
        if let Some(view) = view_of(c, cells, instance.cell.bytes()) {
            add_driven(alloc, &mut names, instance, view)?;
        }
    }
    Ok(names)
}

/// Whether each output and wire is driven once, and nothing else is.
fn is_driven_once(alloc: Global, c: &Circuit, cells: &NameIndex) -> Result<bool, Want>
    requires { cells.now ≡ c.now.cells }
    ensures { IfOk result (λ b. b ≡ is_driven_once_in c.now) }
{
    let targets = targets(alloc, c, cells)?;
    let driven = driven_names(alloc, &c.netlist)?;
    Ok(
        are_distinct(alloc, targets.as_slice())?
            && all_among(alloc, targets.as_slice(), driven.as_slice())?
            && all_among(alloc, driven.as_slice(), targets.as_slice())?,
    )
}

/// Whether each of the cells is plain.
fn are_plain_cells(alloc: Global, views: &[CellView]) -> Result<bool, Want>
    ensures { IfOk result (λ b. b ≡ list_all is_plain_view views.now) }
{
    for view in views {
        if !is_plain_cell(alloc, view)? {
            return Ok(false);
        }
    }
    Ok(true)
}

/// Whether what is given a value are different inputs.
fn are_given(alloc: Global, n: &Netlist, given: &[Name]) -> Result<bool, Want>
    ensures { IfOk result (λ b. b ≡ are_given_in n.now given.now) }
{
    Ok(are_distinct(alloc, given)? && all_among(alloc, n.inputs.as_slice(), given)?)
}

/// Whether a circuit is wired: the names of nets differ; what is given a value are different inputs; its cells have no register and no
/// switch, and functions of inputs alone; each instance is joined to its cell over nets that are given a value or driven by
/// instances before it, and to ports of supplies; and each output and wire is driven once, and nothing else is. `cells` has
/// the names of its cells.
pub fn is_wired(alloc: Global, c: &Circuit, cells: &NameIndex) -> Result<bool, Want>
    requires { cells.now ≡ c.now.cells }
    ensures { IfOk result (λ b. b ≡ is_wired_circuit c.now) }
{
    let names = nets(alloc, &c.netlist)?;
    if !are_distinct(alloc, names.as_slice())? {
        return Ok(false);
    }
    if !are_given(alloc, &c.netlist, c.given.as_slice())? {
        return Ok(false);
    }
    if !are_plain_cells(alloc, c.views.as_slice())? {
        return Ok(false);
    }
    if !are_ordered(alloc, c, cells)? {
        return Ok(false);
    }
    let once = is_driven_once(alloc, c, cells)?;
    Ok(once)
}
