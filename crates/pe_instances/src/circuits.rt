//! A netlist, read against an RTL module, the supplies of a power intent and views of cells.

ghost use Rattle.std.specs.Prelude.{◌≡◌, find, map, IfOk};
ghost use Rattle.std.specs.Option.{option_copied};
ghost use Rattle.std.specs.Str.{bytes_eq};
ghost use Rattle.pe_instances.specs.Fit.{number_of as number_in_names, supply_port, other_inputs, circuit_of};

use crate::parts::{Circuit, Netlist, SupplyPort};
use pe_assigns::input_names;
use pe_base::{Name, NameSet, Want};
use pe_cells::CellView;
use pe_verilog_ast::Module;
use sqlite_items::Items;
use std::alloc::Global;

/// A name with its number.
fn named<'a>(names: &'a [(Name, u32)], name: &[u8]) -> Option<&'a (Name, u32)>
    ensures { option_copied result ≡ find (λ n. bytes_eq n.0 name.now) names.now }
{
    names.iter().find(|pair| pair.0.is(name))
}

/// The number of the supply of a name, or 0.
fn number_of(names: &[(Name, u32)], name: &[u8]) -> u32
    ensures { result ≡ number_in_names names.now name.now }
{
    match named(names, name) {
        Some(pair) => pair.1,
        None => 0,
    }
}

/// The ports of supplies: the inputs that are not given a value.
fn make_supplies(
    alloc: Global,
    netlist: &Netlist,
    given: &[Name],
    names: &[(Name, u32)],
) -> Result<Items<SupplyPort>, Want>
    ensures { IfOk result (λ ports. ports ≡ map (supply_port names.now) (other_inputs netlist.now given.now)) }
{
    let set = NameSet::of(alloc, given)?;
    let mut ports = Items::new(alloc);
    for input in netlist.inputs.as_slice() {
        if !set.contains(input.bytes()) {
            let name = input.copy(alloc)?;
            let supply = number_of(names, input.bytes());
            ports.push(SupplyPort { name, supply })?;
        }
    }
    Ok(ports)
}

/// The netlist, read against the RTL, the names of the supplies with their numbers, and the views of these cells. Inputs that
/// the RTL has are given values, and the others are ports of supplies: `is_fit` says whether they may be.
pub fn make_circuit(
    alloc: Global,
    netlist: Netlist,
    m: &Module,
    names: &[(Name, u32)],
    cells: Items<Name>,
    views: Items<CellView>,
) -> Result<Circuit, Want>
    ensures { IfOk result (λ c. c ≡ circuit_of netlist m.now names.now cells views) }
{
    let given = input_names(alloc, m)?;
    let supplies = make_supplies(alloc, &netlist, given.as_slice(), names)?;
    Ok(Circuit {
        netlist,
        given,
        supplies,
        cells,
        views,
    })
}
