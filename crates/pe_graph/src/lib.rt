//! An and-inverter graph: boolean functions of numbered leaves, in which equal inputs give one node.
#![tactic(auto)]

mod graph;
mod job;
mod literal;
mod marks;
mod named;
mod table;

pub use graph::{Graph, Node};
pub use job::{Goal, Job, Leaf};
pub use literal::Lit;
pub use marks::Marks;
pub use named::{Named, Names, Point, Shown};
