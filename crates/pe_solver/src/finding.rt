//! What a walk along hints comes to.

use pe_graph::Lit;

/// The steps of a walk to a conflict: the hints that gave a new unit, each with its unit, and the hint of the conflict.
#[derive(Drop)]
pub struct Trace {
    pub hints: Vec<u64>,
    pub units: Vec<Lit>,
    pub last: u64,
}

/// A clause, and the numbers of the clauses along which it follows.
#[derive(Drop)]
pub struct Finding {
    pub clause: Vec<Lit>,
    pub hints: Vec<u64>,
}
