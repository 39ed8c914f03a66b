//! The values of a module's nets.

ghost use Rattle.std.specs.Prelude.{◌≡◌, ◌++◌, IfOk, OnOk, Bool, true, List, length, map, slice_set};
ghost use Rattle.std.specs.List.{flat_map};
ghost use Rattle.pe_base.specs.declared.value.Val.{Val};
ghost use Rattle.pe_verilog_ast.specs.declared.module.Module.{Module as Tree};
ghost use Rattle.pe_assigns.specs.Form.{input_names as input_names_of, nets as nets_of, wires_in, assigns_in, is_form};
ghost use Rattle.pe_assigns.specs.Settled.{given_at, IsRtlSettled};
ghost use Rattle.pe_assigns.specs.Begin.{start_of_ports, start_of, written};

use crate::assign::{assign_of, is_input_port, wire_of};
use crate::logic::value;
use pe_base::{Val, Want, known};
use pe_nets::NameIndex;
use pe_verilog_ast::{HeadPort, Item, Module};
use std::alloc::{AllocError, Global};

// The value that the input of this place is given.
fn given_at(inputs: &[bool], place: usize) -> Val
    ensures { result ≡ given_at inputs.now place }
{
    match inputs.get(place) {
        Some(bit) => known(*bit),
        None => Val::Corrupt,
    }
}

// Adds the values of ports from which an evaluation begins.
fn add_ports(values: &mut Vec<Val>, ports: &[HeadPort], inputs: &[bool]) -> Result<(), AllocError>
    ensures { OnOk result (values.new.items ≡ values.old.items ++ start_of_ports ports.now 0 inputs.now) }
{
    let mut count: usize = 0;
    for port in ports {
        if is_input_port(port) {
            values.push(given_at(inputs, count))?;
            count += 1;
        } else {
            values.push(Val::Corrupt)?;
        }
    }
    Ok(())
}

// Adds a corrupt value for each wire.
fn add_wires(values: &mut Vec<Val>, items: &[Item]) -> Result<(), AllocError>
    ensures { OnOk result (values.new.items ≡ values.old.items ++ map (λ w. Val.Corrupt) (flat_map wires_in items.now)) }
{
    for item in items {
        if wire_of(item).is_some() {
            values.push(Val::Corrupt)?;
        }
    }
    Ok(())
}

// The values from which an evaluation begins.
fn start(alloc: Global, m: &Module, inputs: &[bool]) -> Result<Vec<Val>, AllocError>
    ensures { IfOk result (λ values. values.items ≡ start_of m.now inputs.now) }
{
    let mut values = Vec::new(alloc);
    add_ports(&mut values, m.ports.as_slice(), inputs)?;
    add_wires(&mut values, m.items.as_slice())?;
    Ok(values)
}

// Gives a net its value.
fn put(values: &mut [Val], place: usize, value: Val)
    ensures { values.new ≡ slice_set values.old place value }
{
    if place < values.len() {
        values[place] = value;
    }
}

// Gives the target of an assignment its value, if the item is one.
fn write(values: &mut [Val], nets: &NameIndex, on: bool, item: &Item)
    ensures { values.new ≡ written nets.now on values.old (assigns_in item.now) }
{
    if let Some((name, expression)) = assign_of(item) {
        let new = if on {
            value(expression, nets, values)
        } else {
            Val::Corrupt
        };
        put(values, nets.place(name.bytes()), new);
    }
}

/// The values of the nets, for a domain that is on or off and these inputs, in port order. `nets` has the nets' names.
pub fn settle(
    alloc: Global,
    m: &Module,
    nets: &NameIndex,
    on: bool,
    inputs: &[bool],
) -> Result<Vec<Val>, Want>
    requires form { is_form m.now ≡ true }
    requires nets { nets.now ≡ nets_of m.now }
    requires inputs { length inputs.now ≡ length (input_names_of m.now) }
    ensures { IfOk result (λ values. IsRtlSettled m.now on inputs.now values.items) }
{
    let mut values = start(alloc, m, inputs)?;
    for item in m.items.as_slice() {
        write(&mut values, nets, on, item);
    }
    Ok(values)
}

/// Of a module of the form, for a domain that is on or off and all inputs, exactly one map is settled.
pub fn rtl_settled_law()
    ensures exists { (m : Tree) (on : Bool) (inputs : List Bool) → is_form m ≡ true → (values : List Val) × IsRtlSettled m on inputs values }
    ensures one { (m : Tree) (on : Bool) (inputs : List Bool) (values others : List Val) → is_form m ≡ true → IsRtlSettled m on inputs values → IsRtlSettled m on inputs others → values ≡ others }
{}
