//! Whether an instance is joined to its cell.

ghost use Rattle.std.specs.Prelude.{◌≡◌};
ghost use Rattle.std.specs.List.{list_all, list_any};
ghost use Rattle.std.specs.Str.{bytes_eq};
ghost use Rattle.pe_cells.specs.Kinds.{is_well as is_well_kind};
ghost use Rattle.pe_instances.specs.Wired.{has_pin as has_pin_of, is_fed as is_fed_by, is_supplied as is_supplied_of, is_joined as is_joined_to};

use crate::parts::{Connection, Instance};
use crate::pins::net_on;
use pe_base::NameSet;
use pe_cells::{CellView, Pg, PgKind, Signal};

fn has_signal(signals: &[Signal], name: &[u8]) -> bool
    ensures { result ≡ list_any (λ s. bytes_eq s.name name.now) signals.now }
{
    signals.iter().any(|s| s.name.is(name))
}

fn has_pg(pgs: &[Pg], name: &[u8]) -> bool
    ensures { result ≡ list_any (λ p. bytes_eq p.name name.now) pgs.now }
{
    pgs.iter().any(|pg| pg.name.is(name))
}

/// Whether a cell has a pin of the name.
fn has_pin(view: &CellView, name: &[u8]) -> bool
    ensures { result ≡ has_pin_of view.now name.now }
{
    has_signal(view.signals.as_slice(), name) || has_pg(view.pgs.as_slice(), name)
}

/// Whether what is connected are pins of the cell.
fn has_pins(view: &CellView, connections: &[Connection]) -> bool
    ensures { result ≡ list_all (λ c. has_pin_of view.now c.pin) connections.now }
{
    connections.iter().all(|c| has_pin(view, c.pin.bytes()))
}

/// Whether a pin is an output, or on a net that is known.
fn is_fed(known: &NameSet, instance: &Instance, signal: &Signal) -> bool
    ensures { result ≡ is_fed_by known.now instance.now signal.now }
{
    if signal.output {
        return true;
    }
    match net_on(instance, signal.name.bytes()) {
        Some(net) => known.contains(net.bytes()),
        None => false,
    }
}

/// Whether each pin is an output, or on a net that is known.
fn are_fed(known: &NameSet, instance: &Instance, signals: &[Signal]) -> bool
    ensures { result ≡ list_all (is_fed_by known.now instance.now) signals.now }
{
    signals.iter().all(|s| is_fed(known, instance, s))
}

fn is_well(kind: PgKind) -> bool
    ensures { result ≡ is_well_kind kind }
{
    matches!(kind, PgKind::Well)
}

/// Whether a power or ground pin is on a port of a supply, or an open well.
fn is_supplied(ports: &NameSet, instance: &Instance, pg: &Pg) -> bool
    ensures { result ≡ is_supplied_of ports.now instance.now pg.now }
{
    match net_on(instance, pg.name.bytes()) {
        Some(net) => ports.contains(net.bytes()),
        None => is_well(pg.kind),
    }
}

/// Whether each power or ground pin is on a port of a supply, or an open well.
fn are_supplied(ports: &NameSet, instance: &Instance, pgs: &[Pg]) -> bool
    ensures { result ≡ list_all (is_supplied_of ports.now instance.now) pgs.now }
{
    pgs.iter().all(|pg| is_supplied(ports, instance, pg))
}

/// Whether an instance is joined to its cell: what it connects are pins of the cell, the inputs are on nets that are known, and
/// the power and ground pins are on ports of supplies, but that wells may be open.
pub(crate) fn is_joined(
    ports: &NameSet,
    known: &NameSet,
    instance: &Instance,
    view: &CellView,
) -> bool
    ensures { result ≡ is_joined_to ports.now known.now instance.now (Some view.now) }
{
    has_pins(view, instance.connections.as_slice())
        && are_fed(known, instance, view.signals.as_slice())
        && are_supplied(ports, instance, view.pgs.as_slice())
}
