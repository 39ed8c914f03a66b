//! Whether a netlist fits an RTL module and the supplies of a power intent.

ghost use Rattle.std.specs.Prelude.{◌≡◌, ◌==◌, ◌&&◌, not, IfOk};
ghost use Rattle.std.specs.List.{list_all, list_any};
ghost use Rattle.pe_base.specs.Names.{has_name, HasSameNames};
ghost use Rattle.pe_instances.specs.Fit.{names_in, has_one_port as has_one_port_of, are_root_ports as are_root_ports_of, are_same_ports as are_same_ports_of, are_apart as are_apart_from, is_fit as is_fit_of};

use crate::parts::{Circuit, Netlist, SupplyPort};
use crate::wiring::is_wired;
use pe_assigns::{input_names, output_names, port_names};
use pe_base::{Name, NameSet, Want, all_among};
use pe_nets::NameIndex;
use pe_verilog_ast::Module;
use std::alloc::Global;

/// The names of supplies.
fn names_of<'a>(alloc: Global, names: &'a [(Name, u32)]) -> Result<NameSet<'a>, Want>
    ensures { IfOk result (λ set. HasSameNames set (names_in names.now)) }
{
    let mut set = NameSet::new(alloc);
    for pair in names {
        set.insert(pair.0.bytes())?;
    }
    Ok(set)
}

/// Whether the inputs of the RTL are inputs of the netlist, and the outputs of both are the same.
fn are_same_ports(alloc: Global, m: &Module, n: &Netlist) -> Result<bool, Want>
    ensures { IfOk result (λ b. b ≡ are_same_ports_of m.now n.now) }
{
    let inputs = input_names(alloc, m)?;
    let outputs = output_names(alloc, m)?;
    Ok(
        all_among(alloc, n.inputs.as_slice(), inputs.as_slice())?
            && all_among(alloc, n.outputs.as_slice(), outputs.as_slice())?
            && all_among(alloc, outputs.as_slice(), n.outputs.as_slice())?,
    )
}

/// Whether none of the ports has one of the names.
fn are_none_of(set: &NameSet, ports: &[Name]) -> bool
    ensures { result ≡ list_all (λ port. not (has_name set.now port)) ports.now }
{
    ports.iter().all(|port| !set.contains(port.bytes()))
}

/// Whether no port of the RTL has the name of a supply.
fn are_apart(alloc: Global, m: &Module, names: &[(Name, u32)]) -> Result<bool, Want>
    ensures { IfOk result (λ b. b ≡ are_apart_from m.now names.now) }
{
    let set = names_of(alloc, names)?;
    let ports = port_names(alloc, m)?;
    Ok(are_none_of(&set, ports.as_slice()))
}

/// Whether a number is one of these.
fn is_among(numbers: &[u32], number: u32) -> bool
    ensures { result ≡ list_any (λ n. n == number) numbers.now }
{
    numbers.iter().any(|other| *other == number)
}

/// Whether a port has one of the names, and its supply is a root.
fn is_root_port(set: &NameSet, roots: &[u32], port: &SupplyPort) -> bool
    ensures { result ≡ (has_name set.now port.now.name && list_any (λ r. r == port.now.supply) roots.now) }
{
    set.contains(port.name.bytes()) && is_among(roots, port.supply)
}

/// Whether each port has one of the names, and its supply is a root.
fn are_ports_of_roots(set: &NameSet, roots: &[u32], ports: &[SupplyPort]) -> bool
    ensures { result ≡ list_all (λ port. has_name set.now port.name && list_any (λ r. r == port.supply) roots.now) ports.now }
{
    ports.iter().all(|port| is_root_port(set, roots, port))
}

/// Whether a root has one port.
fn has_one_port(ports: &[SupplyPort], root: u32) -> bool
    ensures { result ≡ has_one_port_of ports.now root }
{
    ports.iter().filter(|port| port.supply == root).count() == 1
}

/// Whether each root has one port.
fn have_one_port(ports: &[SupplyPort], roots: &[u32]) -> bool
    ensures { result ≡ list_all (has_one_port_of ports.now) roots.now }
{
    roots.iter().all(|root| has_one_port(ports, *root))
}

/// Whether the ports are ports of roots, and there is one for each root.
fn are_root_ports(
    alloc: Global,
    names: &[(Name, u32)],
    roots: &[u32],
    ports: &[SupplyPort],
) -> Result<bool, Want>
    ensures { IfOk result (λ b. b ≡ are_root_ports_of names.now roots.now ports.now) }
{
    let set = names_of(alloc, names)?;
    if !are_ports_of_roots(&set, roots, ports) {
        return Ok(false);
    }
    Ok(have_one_port(ports, roots))
}

/// Whether a circuit fits the RTL and the supplies: the netlist's module has the RTL's name; its inputs are the RTL's and one
/// port for each root, which has a name of that supply; its outputs are the RTL's; no port of the RTL has the name of a supply;
/// and the circuit is wired, as `is_wired` tests. `names` has the names of the supplies with their numbers, `roots` the numbers
/// of those that no switch drives, and `cells` the names of the circuit's cells.
pub fn is_fit(
    alloc: Global,
    m: &Module,
    names: &[(Name, u32)],
    roots: &[u32],
    c: &Circuit,
    cells: &NameIndex,
) -> Result<bool, Want>
    requires { cells.now ≡ c.now.cells }
    ensures { IfOk result (λ b. b ≡ is_fit_of m.now names.now roots.now c.now) }
{
    if !c.netlist.name.is(m.name.bytes()) {
        return Ok(false);
    }
    if !are_same_ports(alloc, m, &c.netlist)? {
        return Ok(false);
    }
    if !are_apart(alloc, m, names)? {
        return Ok(false);
    }
    if !are_root_ports(alloc, names, roots, c.supplies.as_slice())? {
        return Ok(false);
    }
    let wired = is_wired(alloc, c, cells)?;
    Ok(wired)
}
