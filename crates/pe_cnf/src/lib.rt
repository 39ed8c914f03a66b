//! The question of a goal as clauses: the cone of its context and its two sides in a graph, with the equalities that
//! are cited.
#![tactic(auto)]

mod askable;
mod clauses;
mod equality;
mod gates;
mod leaves;
mod list;
mod marks;
mod plain;

pub use askable::is_askable;
pub use clauses::{Clauses, cone, cone_law, counterexample_law, forced_law};
pub use equality::Equality;
pub use list::ClauseList;
pub use pe_graph::Goal;
pub use plain::plain_job;
