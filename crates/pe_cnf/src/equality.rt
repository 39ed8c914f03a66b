//! Equalities.

use pe_graph::Lit;

/// That `a` and `b` are equal wherever `ctx` is 1.
#[derive(Clone, Copy, Debug, PartialEq, Eq)]
pub struct Equality {
    pub ctx: Lit,
    pub a: Lit,
    pub b: Lit,
}
