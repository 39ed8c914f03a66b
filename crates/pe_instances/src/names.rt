//! The names of a netlist: its nets, what has to be driven, and the cells that it uses.

ghost use Rattle.std.specs.Prelude.{◌≡◌, ◌++◌, IfOk, OnOk};
ghost use Rattle.pe_instances.specs.Form.{driven_names as driven_names_of, nets as nets_of_netlist, used_cells as used_cells_of};

use crate::parts::Netlist;
use pe_base::{Name, Want};
use pe_nets::NameIndex;
use sqlite_items::Items;
use std::alloc::Global;

/// Adds copies of names.
fn add_names(alloc: Global, names: &mut Items<Name>, more: &[Name]) -> Result<(), Want>
    ensures { OnOk result (names.new ≡ names.old ++ more.now) }
{
    for name in more {
        let name = name.copy(alloc)?;
        names.push(name)?;
    }
    Ok(())
}

/// The names of the nets: the inputs, then the outputs, then the wires.
pub fn nets(alloc: Global, n: &Netlist) -> Result<Items<Name>, Want>
    ensures { IfOk result (λ names. names ≡ nets_of_netlist n.now) }
{
    let mut names = Items::new(alloc);
    add_names(alloc, &mut names, n.inputs.as_slice())?;
    add_names(alloc, &mut names, n.outputs.as_slice())?;
    add_names(alloc, &mut names, n.wires.as_slice())?;
    Ok(names)
}

/// The names of the nets that cells have to drive: the outputs, then the wires.
pub(crate) fn driven_names(alloc: Global, n: &Netlist) -> Result<Items<Name>, Want>
    ensures { IfOk result (λ names. names ≡ driven_names_of n.now) }
{
    let mut names = Items::new(alloc);
    add_names(alloc, &mut names, n.outputs.as_slice())?;
    add_names(alloc, &mut names, n.wires.as_slice())?;
    Ok(names)
}

/// The cells that the instances name, each once, in the order of their first use.
pub fn used_cells(alloc: Global, n: &Netlist) -> Result<Items<Name>, Want>
    ensures { IfOk result (λ names. names ≡ used_cells_of n.now) }
{
    let mut seen = NameIndex::new(alloc);
    let mut names = Items::new(alloc);
    for instance in n.instances.as_slice() {
        if seen.insert(instance.cell.bytes())? {
            let name = instance.cell.copy(alloc)?;
            names.push(name)?;
        }
    }
    Ok(names)
}
