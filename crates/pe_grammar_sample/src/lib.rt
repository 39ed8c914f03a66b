//! Two small languages over `pe_grammar`: boolean expressions, and statements with a syntax tree of their own.
//!
//! They show what a language adds to the engine, and carry its tests.
#![tactic(auto)]

mod boolean;
mod boolean_table;
mod build;
mod statement;
mod statement_table;
#[cfg(test)]
mod tests;

pub use boolean::{one_boolean, read_boolean};
pub use statement::{Setting, Statement, one_statement, read_statement};
pub use statement_table::{AT_STATEMENT, STATEMENT};
