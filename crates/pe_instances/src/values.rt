//! The value of an output pin of an instance.

ghost use Rattle.std.specs.Prelude.{◌≡◌, ◌≤◌, false, length, find, map, slice_index_or, IfOk, IfSome};
ghost use Rattle.std.specs.Option.{option_copied};
ghost use Rattle.std.specs.Str.{bytes_eq};
ghost use Rattle.pe_bool_expr.specs.Functions.{pins_of, different};
ghost use Rattle.pe_nets.specs.Nets.{value_in};
ghost use Rattle.pe_instances.specs.Settled.{value_on as value_on_net, signal_value as signal_value_of, state_on as state_on_port, pg_state as pg_state_of, output_value as output_value_of};

use crate::parts::{Circuit, Instance, SupplyPort};
use crate::pins::net_on;
use pe_base::{Name, Val, Want};
use pe_cells::{CellView, Pg, Signal, output, pin_values};
use pe_nets::NameIndex;
use std::alloc::{AllocError, Global};

/// The value of a net, and corrupt where there is none.
fn value_on(nets: &NameIndex, values: &[Val], net: Option<&Name>) -> Val
    ensures { result ≡ value_on_net (value_in nets.now values.now) (option_copied net.entry) }
{
    match net {
        None => Val::Corrupt,
        Some(net) => match values.get(nets.place(net.bytes())) {
            Some(value) => *value,
            None => Val::Corrupt,
        },
    }
}

/// What a signal pin reads as.
fn signal_value(nets: &NameIndex, values: &[Val], instance: &Instance, signal: &Signal) -> Val
    ensures { result ≡ signal_value_of (value_in nets.now values.now) instance.now signal.now }
{
    if signal.output {
        return Val::Corrupt;
    }
    value_on(nets, values, net_on(instance, signal.name.bytes()))
}

/// What the signal pins read as.
fn signal_values(
    alloc: Global,
    nets: &NameIndex,
    values: &[Val],
    instance: &Instance,
    signals: &[Signal],
) -> Result<Vec<Val>, AllocError>
    ensures { IfOk result (λ v. v.items ≡ map (signal_value_of (value_in nets.now values.now) instance.now) signals.now) }
{
    signals
        .iter()
        .map(|s| signal_value(nets, values, instance, s))
        .collect(alloc)
}

/// The port of a name.
fn port_of<'a>(ports: &'a [SupplyPort], name: &[u8]) -> Option<&'a SupplyPort>
    ensures { option_copied result ≡ find (λ p. bytes_eq p.name name.now) ports.now }
{
    ports.iter().find(|port| port.name.is(name))
}

/// The state at a place; past the end it is off.
fn is_on(states: &[bool], place: u32) -> bool
    ensures { result ≡ slice_index_or states.now place false }
{
    match states.get(place as usize) {
        Some(on) => *on,
        None => false,
    }
}

/// Whether the supply of a port is on.
fn state_of(ports: &[SupplyPort], states: &[bool], name: &[u8]) -> bool
    ensures { result ≡ state_on_port ports.now states.now (Some name.now) }
{
    match port_of(ports, name) {
        None => false,
        Some(port) => is_on(states, port.supply),
    }
}

/// Whether a power or ground pin is on.
fn pg_state(ports: &[SupplyPort], states: &[bool], instance: &Instance, pg: &Pg) -> bool
    ensures { result ≡ pg_state_of ports.now states.now instance.now pg.now }
{
    match net_on(instance, pg.name.bytes()) {
        None => false,
        Some(net) => state_of(ports, states, net.bytes()),
    }
}

/// Which power and ground pins are on.
fn pg_states(
    alloc: Global,
    ports: &[SupplyPort],
    states: &[bool],
    instance: &Instance,
    pgs: &[Pg],
) -> Result<Vec<bool>, AllocError>
    ensures { IfOk result (λ v. v.items ≡ map (pg_state_of ports.now states.now instance.now) pgs.now) }
{
    pgs.iter()
        .map(|pg| pg_state(ports, states, instance, pg))
        .collect(alloc)
}

/// The value of an output pin, where the supplies have these states and the nets these values.
pub(crate) fn output_value(
    alloc: Global,
    c: &Circuit,
    states: &[bool],
    nets: &NameIndex,
    values: &[Val],
    instance: &Instance,
    view: &CellView,
    signal: &Signal,
) -> Result<Val, Want>
    requires few { IfSome signal.now.function (λ e. length (different (pins_of e)) ≤ 10) }
    requires few_down { IfSome signal.now.down (λ e. length (different (pins_of e)) ≤ 10) }
    ensures { IfOk result (λ v. v ≡ output_value_of c.now states.now (value_in nets.now values.now) instance.now view.now signal.now) }
{
    let pgs = view.pgs.as_slice();
    let ons = pg_states(alloc, c.supplies.as_slice(), states, instance, pgs)?;
    let reads = signal_values(alloc, nets, values, instance, view.signals.as_slice())?;
    let pins = pin_values(
        alloc,
        reads.as_slice(),
        pgs,
        ons.as_slice(),
        Val::Corrupt,
        Val::Corrupt,
    )?;
    Ok(output(signal, pgs, pins.as_slice(), ons.as_slice()))
}
