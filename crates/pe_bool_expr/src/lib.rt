//! Boolean functions of pins and controls, as Liberty and UPF (IEEE 1801) write them, and their values where inputs may be
//! corrupt.
#![tactic(auto)]

mod build;
mod different;
mod evaluate;
mod expr;
mod fault;
mod join;
mod liberty_table;
mod names;
mod nesting;
mod reading;
mod scan;
mod style;
mod terminal;
mod upf_table;

pub use evaluate::eval3;
pub use expr::Expr;
pub use fault::ExprFault;
pub use reading::{one_function, parse};
pub use style::Style;
