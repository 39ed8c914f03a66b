//! The checker of evidence: that a goal's sides are equal wherever its context is 1.
#![tactic(auto)]

mod admit;
mod chain;
mod checkable;
mod checker;
mod entry;
mod evidence;
mod follow;
mod scratch;
mod table;

pub use admit::{checked, vars_of};
pub use chain::{chain_fault, chain_law};
pub use checkable::is_checkable;
pub use checker::{check, first_fault};
pub use entry::{CheckedEntry, Entry, EntryFault};
pub use evidence::{Derived, Evidence};
pub use follow::{Effect, find_clause, follows, look};
pub use scratch::Scratch;
pub use table::table_fault;
