//! Supplies of a power intent (IEEE 1801): which names are one supply, what drives each, in which state each is, which rows
//! of the power state table hold, and which steps from row to row a run may take.
#![tactic(auto)]

mod built;
mod drivers;
mod fault;
mod levels;
mod lookup;
mod numbers;
mod permitted;
mod plan;
mod planning;
mod rows;
mod state;
mod supplies;
mod switches;
mod tables;
mod uses;

pub use built::{build, one_supplies};
pub use fault::SupplyFault;
pub use permitted::{StepFault, steps};
pub use rows::holds;
pub use state::state_law;
pub use supplies::{Level, Row, Supplies, Switch};
