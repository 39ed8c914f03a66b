//! The names of a module: ports, nets and targets.

ghost use Rattle.std.specs.Prelude.{◌≡◌, ◌++◌, ◌∷◌, [], IfOk, OnOk};
ghost use Rattle.std.specs.List.{flat_map};
ghost use Rattle.pe_assigns.specs.Form.{port_names, input_names, output_names, wires_in, nets, driven_names, targets};

use crate::assign::{assign_of, is_input_port, is_output_port, port_name, wire_of};
use pe_base::{Name, Want};
use pe_verilog_ast::{Item, Module};
use sqlite_items::Items;
use std::alloc::Global;

// Adds a name at the end.
fn add(alloc: Global, names: &mut Items<Name>, name: &Name) -> Result<(), Want>
    ensures { OnOk result (names.new ≡ names.old ++ name.now ∷ []) }
{
    let name = name.copy(alloc)?;
    names.push(name)?;
    Ok(())
}

/// The names of the ports, in their order.
pub fn port_names(alloc: Global, m: &Module) -> Result<Items<Name>, Want>
    ensures { IfOk result (λ names. names ≡ port_names m.now) }
{
    let mut names = Items::new(alloc);
    for port in m.ports.as_slice() {
        add(alloc, &mut names, port_name(port))?;
    }
    Ok(names)
}

/// The names of the inputs, in the order of the ports.
pub fn input_names(alloc: Global, m: &Module) -> Result<Items<Name>, Want>
    ensures { IfOk result (λ names. names ≡ input_names m.now) }
{
    let mut names = Items::new(alloc);
    for port in m.ports.as_slice() {
        if is_input_port(port) {
            add(alloc, &mut names, port_name(port))?;
        }
    }
    Ok(names)
}

/// The names of the outputs, in the order of the ports.
pub fn output_names(alloc: Global, m: &Module) -> Result<Items<Name>, Want>
    ensures { IfOk result (λ names. names ≡ output_names m.now) }
{
    let mut names = Items::new(alloc);
    for port in m.ports.as_slice() {
        if is_output_port(port) {
            add(alloc, &mut names, port_name(port))?;
        }
    }
    Ok(names)
}

// Adds the wires that items declare.
fn add_wires(alloc: Global, names: &mut Items<Name>, items: &[Item]) -> Result<(), Want>
    ensures { OnOk result (names.new ≡ names.old ++ flat_map wires_in items.now) }
{
    for item in items {
        if let Some(name) = wire_of(item) {
            add(alloc, names, name)?;
        }
    }
    Ok(())
}

/// The names of the nets: the ports, then the wires.
pub fn nets(alloc: Global, m: &Module) -> Result<Items<Name>, Want>
    ensures { IfOk result (λ names. names ≡ nets m.now) }
{
    let mut names = port_names(alloc, m)?;
    add_wires(alloc, &mut names, m.items.as_slice())?;
    Ok(names)
}

/// The names of the nets that have to be driven: the outputs, then the wires.
pub(crate) fn driven_names(alloc: Global, m: &Module) -> Result<Items<Name>, Want>
    ensures { IfOk result (λ names. names ≡ driven_names m.now) }
{
    let mut names = output_names(alloc, m)?;
    add_wires(alloc, &mut names, m.items.as_slice())?;
    Ok(names)
}

/// The names of the targets, in the order of the assignments.
pub(crate) fn targets(alloc: Global, m: &Module) -> Result<Items<Name>, Want>
    ensures { IfOk result (λ names. names ≡ targets m.now) }
{
    let mut names = Items::new(alloc);
    for item in m.items.as_slice() {
        if let Some((name, _)) = assign_of(item) {
            add(alloc, &mut names, name)?;
        }
    }
    Ok(names)
}
