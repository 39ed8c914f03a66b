//! Syntax trees of Verilog (IEEE 1364), of RTL and of netlists.
//!
//! A tree has the order and the names of its text. Parentheses leave no node. Contracts see names as bytes and lists as
//! lists, so that a tree equals the tree of a definition.
#![tactic(auto)]

mod cost;
mod expression;
mod family;
mod item;
mod module;
mod number;
mod operator;
mod size;
mod statement;
mod target;
#[cfg(test)]
mod tests;

pub use expression::{Ex, Operand, Select};
pub use item::{Item, Pins};
pub use module::{Dir, HeadPort, Module, NetKind, Param, Port, Range, Source};
pub use number::Digit;
pub use operator::{BinOp, UnOp};
pub use size::{weight, width};
pub use statement::{Arm, Edge, Event, Stmt};
pub use target::Target;
