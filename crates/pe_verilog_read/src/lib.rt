//! Reads Verilog (IEEE 1364): RTL and netlists.
#![tactic(auto)]

mod event;
mod expression;
mod head;
mod item;
mod leaf;
mod module;
mod number;
mod parsing;
mod plain;
mod plain_item;
mod port;
mod reading;
mod rules;
mod statement;
mod target;
mod terminal;
mod verilog_table;
mod whole;
mod words;

pub use reading::{one_source, read_verilog};
