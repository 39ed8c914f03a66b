//! Gate netlists of one module (IEEE 1364): which trees are such, when one fits an RTL module and the supplies of a power
//! intent, and the values of its nets.
#![tactic(auto)]

mod circuits;
mod consistent;
mod fitting;
mod form;
mod joining;
mod names;
mod parts;
mod pins;
mod plain;
mod settling;
mod values;
mod wiring;

pub use circuits::make_circuit;
pub use fitting::is_fit;
pub use form::{is_net_form, read_netlist};
pub use names::{nets, used_cells};
pub use parts::{Circuit, Connection, Instance, Netlist, SupplyPort};
pub use settling::{net_settled_law, settle};
pub use wiring::is_wired;
