//! What is given as evidence.

use pe_graph::Lit;
use smallvec::SmallVec;

/// A clause, and the numbers of the clauses along which it follows.
#[derive(Drop)]
pub struct Derived {
    pub clause: SmallVec<Lit, 6>,
    pub hints: SmallVec<u64, 8>,
}

/// Why the sides of a goal are equal wherever its context is 1.
#[derive(Drop)]
pub enum Evidence {
    /// By all assignments of the leaves.
    Table,
    /// By clauses that follow one after another, the last of them empty.
    Chain(Vec<Derived>),
}
