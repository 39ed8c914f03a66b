//! The values of a circuit's nets.

ghost use Rattle.std.specs.Prelude.{◌≡◌, ◌++◌, IfOk, OnOk, Bool, true, List, length, map, slice_set};
ghost use Rattle.std.specs.List.{All};
ghost use Rattle.pe_base.specs.Names.{are_distinct};
ghost use Rattle.pe_base.specs.declared.value.Val.{Val};
ghost use Rattle.pe_assigns.specs.Settled.{given_at};
ghost use Rattle.pe_cells.specs.WellFormed.{IsWellFormed, IsSignalOf};
ghost use Rattle.pe_instances.specs.declared.parts.Circuit.{Circuit as Read};
ghost use Rattle.pe_instances.specs.Form.{nets as nets_of};
ghost use Rattle.pe_instances.specs.Pins.{view_of as view_of_cell, drives_by, drives_of};
ghost use Rattle.pe_instances.specs.Wired.{is_wired};
ghost use Rattle.pe_instances.specs.Settled.{IsNetSettled};
ghost use Rattle.pe_instances.specs.Begin.{first_value as first_value_of, start_of, written};

use crate::parts::{Circuit, Instance};
use crate::pins::{net_driven, view_of};
use crate::values::output_value;
use pe_base::{Name, Val, Want, known};
use pe_cells::{CellView, Signal};
use pe_nets::NameIndex;
use std::alloc::{AllocError, Global};

/// The value that is given at a place.
fn given_at(inputs: &[bool], place: usize) -> Val
    ensures { result ≡ given_at inputs.now place }
{
    match inputs.get(place) {
        Some(bit) => known(*bit),
        None => Val::Corrupt,
    }
}

/// The value from which a net begins. `given` has the names of what is given a value.
fn first_value(given: &NameIndex, inputs: &[bool], name: &[u8]) -> Val
    requires { length inputs.now ≡ length given.now }
    ensures { result ≡ first_value_of given.now inputs.now name.now }
{
    given_at(inputs, given.place(name))
}

/// Adds the values from which nets begin.
fn add_first(
    values: &mut Vec<Val>,
    given: &NameIndex,
    inputs: &[bool],
    names: &[Name],
) -> Result<(), AllocError>
    requires { length inputs.now ≡ length given.now }
    ensures { OnOk result (values.new.items ≡ values.old.items ++ map (first_value_of given.now inputs.now) names.now) }
{
    for name in names {
        values.push(first_value(given, inputs, name.bytes()))?;
    }
    Ok(())
}

/// The values from which an evaluation begins.
fn start(alloc: Global, c: &Circuit, inputs: &[bool]) -> Result<Vec<Val>, Want>
    requires apart { are_distinct c.now.given ≡ true }
    requires inputs { length inputs.now ≡ length c.now.given }
    ensures { IfOk result (λ values. values.items ≡ start_of c.now inputs.now) }
{
    match NameIndex::of(alloc, c.given.as_slice())? {
        None => unreachable!(),
        Some(given) => {
            let mut values = Vec::new(alloc);
            add_first(&mut values, &given, inputs, c.netlist.inputs.as_slice())?;
            add_first(&mut values, &given, inputs, c.netlist.outputs.as_slice())?;
            add_first(&mut values, &given, inputs, c.netlist.wires.as_slice())?;
            Ok(values)
        }
    }
}

/// Gives a net its value.
fn put(values: &mut [Val], place: usize, value: Val)
    ensures { values.new ≡ slice_set values.old place value }
{
    if place < values.len() {
        values[place] = value;
    }
}

/// Gives the net that an output pin drives its value.
fn write_pin(
    alloc: Global,
    values: &mut [Val],
    c: &Circuit,
    states: &[bool],
    nets: &NameIndex,
    instance: &Instance,
    view: &CellView,
    signal: &Signal,
) -> Result<(), Want>
    requires { IsSignalOf view.now signal.now }
    ensures { OnOk result (values.new ≡ written c.now nets.now states.now values.old (drives_by instance.now view.now signal.now)) }
{
    if let Some(net) = net_driven(instance, signal) {
        let value = output_value(alloc, c, states, nets, values, instance, view, signal)?;
        put(values, nets.place(net.bytes()), value);
    }
    Ok(())
}

/// Gives the nets that an instance of this cell drives their values.
fn write_pins(
    alloc: Global,
    values: &mut [Val],
    c: &Circuit,
    states: &[bool],
    nets: &NameIndex,
    instance: &Instance,
    view: &CellView,
) -> Result<(), Want>
    requires { IsWellFormed view.now }
    ensures { OnOk result (values.new ≡ written c.now nets.now states.now values.old (drives_of instance.now (Some view.now))) }
{
    for signal in view.signals.as_slice() {
        write_pin(alloc, values, c, states, nets, instance, view, signal)?;
    }
    Ok(())
}

/// Gives the nets that an instance drives their values.
fn write_instance(
    alloc: Global,
    values: &mut [Val],
    c: &Circuit,
    states: &[bool],
    nets: &NameIndex,
    cells: &NameIndex,
    instance: &Instance,
) -> Result<(), Want>
    requires cells { cells.now ≡ c.now.cells }
    requires well_formed { All IsWellFormed c.now.views }
    ensures { OnOk result (values.new ≡ written c.now nets.now states.now values.old (drives_of instance.now (view_of_cell c.now instance.now.cell))) }
{
    match view_of(c, cells, instance.cell.bytes()) {
        None => Ok(()),
        Some(view) => write_pins(alloc, values, c, states, nets, instance, view),
    }
}

/// The values of the nets, for these states of the supplies, by their numbers, and these values of what is given one. `nets`
/// has the names of the nets, and `cells` those of the cells.
pub fn settle(
    alloc: Global,
    c: &Circuit,
    nets: &NameIndex,
    cells: &NameIndex,
    states: &[bool],
    inputs: &[bool],
) -> Result<Vec<Val>, Want>
    requires wired { is_wired c.now ≡ true }
    requires well_formed { All IsWellFormed c.now.views }
    requires nets { nets.now ≡ nets_of c.now.netlist }
    requires cells { cells.now ≡ c.now.cells }
    requires inputs { length inputs.now ≡ length c.now.given }
    ensures { IfOk result (λ values. IsNetSettled c.now states.now inputs.now values.items) }
{
    let mut values = start(alloc, c, inputs)?;
    for instance in c.netlist.instances.as_slice() {
        write_instance(alloc, &mut values, c, states, nets, cells, instance)?;
    }
    Ok(values)
}

/// Of a circuit that is wired, for all states of the supplies and all values of what is given one, exactly one map is settled.
pub fn net_settled_law()
    ensures exists { (c : Read) (states inputs : List Bool) → is_wired c ≡ true → (values : List Val) × IsNetSettled c states inputs values }
    ensures one { (c : Read) (states inputs : List Bool) (values others : List Val) → is_wired c ≡ true → IsNetSettled c states inputs values → IsNetSettled c states inputs others → values ≡ others }
{}
