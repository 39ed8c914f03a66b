//! Cells of a library: what a cell has, and what its outputs, its switches and its register are.
#![tactic(auto)]

mod cell;
mod fault;
mod form;
mod functions;
mod kinds;
mod looking;
mod naming;
mod outputs;
mod power;
mod register;
mod registers;
mod repeats;
mod retaining;
mod signals;
mod switches;
mod viewing;

pub use cell::{
    CellRegister, CellRetention, CellSwitch, CellView, Pg, PgKind, RetentionPin, Signal,
};
pub use fault::CellFault;
pub use functions::has_short_functions;
pub use outputs::{output, pin_values, value};
pub use power::{has_switch_on, is_powered, is_retained, pg_value};
pub use register::{complement, control};
pub use viewing::{one_view, view};
