//! On which nets the pins of an instance are.

ghost use Rattle.std.specs.Prelude.{◌≡◌, find};
ghost use Rattle.std.specs.Option.{option_copied};
ghost use Rattle.std.specs.Str.{bytes_eq};
ghost use Rattle.pe_instances.specs.Pins.{net_on as net_on_pin, net_driven as net_driven_by, view_of as view_of_cell};

use crate::parts::{Circuit, Connection, Instance};
use pe_base::Name;
use pe_cells::{CellView, Signal};
use pe_nets::NameIndex;

/// What an instance says of a pin.
fn connection<'a>(instance: &'a Instance, pin: &[u8]) -> Option<&'a Connection>
    ensures { option_copied result ≡ find (λ c. bytes_eq c.pin pin.now) instance.now.connections }
{
    instance
        .connections
        .as_slice()
        .iter()
        .find(|c| c.pin.is(pin))
}

/// The net that a pin is on.
pub(crate) fn net_on<'a>(instance: &'a Instance, pin: &[u8]) -> Option<&'a Name>
    ensures { option_copied result ≡ net_on_pin instance.now pin.now }
{
    match connection(instance, pin) {
        None => None,
        Some(c) => match &c.net {
            None => None,
            Some(net) => Some(net),
        },
    }
}

/// The net that a pin drives, if it is an output and on one.
pub(crate) fn net_driven<'a>(instance: &'a Instance, signal: &Signal) -> Option<&'a Name>
    ensures { option_copied result ≡ net_driven_by instance.now signal.now }
{
    if signal.output {
        net_on(instance, signal.name.bytes())
    } else {
        None
    }
}

/// The view of a cell. `cells` has the names of the circuit's cells.
pub(crate) fn view_of<'a>(c: &'a Circuit, cells: &NameIndex, cell: &[u8]) -> Option<&'a CellView>
    requires { cells.now ≡ c.now.cells }
    ensures { option_copied result ≡ view_of_cell c.now cell.now }
{
    c.views.get(cells.place(cell))
}
