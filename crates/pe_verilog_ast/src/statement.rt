//! Statements of `always` blocks, and their events.

use crate::expression::Ex;
use crate::target::Target;
use pe_base::Name;
use sqlite_items::{Boxed, Items};

/// Which edge of a net is an event.
#[derive(Clone, Copy, Debug, PartialEq, Eq)]
pub enum Edge {
    /// `posedge`
    Rising,
    /// `negedge`
    Falling,
}

/// An event of a block: an edge of a net, or any change of it.
#[derive(Debug, Drop)]
pub struct Event {
    pub edge: Option<Edge>,
    pub name: Name,
}

/// A statement. A chain of `else if` is nested, each test in the one before it.
#[derive(Drop)]
#[cycle(statements)]
pub enum Stmt {
    /// `begin .. end`, with or without a name.
    Block {
        name: Option<Name>,
        body: Items<Stmt>,
    },
    If {
        cond: Ex,
        yes: Boxed<Stmt>,
        no: Option<Boxed<Stmt>>,
    },
    /// `case`, or `casez` where it is wild. It has an arm at least.
    Case {
        wild: bool,
        subject: Ex,
        arms: Items<Arm>,
    },
    /// `=` where it is blocking, else `<=`.
    Assign {
        target: Target,
        blocking: bool,
        value: Ex,
    },
    /// `;`
    Empty,
}

/// An arm of a `case`. An arm without labels is the default.
#[derive(Drop)]
#[cycle(statements)]
pub struct Arm {
    pub labels: Items<Ex>,
    pub body: Stmt,
}
