//! Items of modules.

use crate::expression::Ex;
use crate::module::{NetKind, Port, Range};
use crate::statement::{Event, Stmt};
use crate::target::Target;
use pe_base::Name;
use sqlite_items::Items;

/// Connections of an instance, or values of its parameters: one or more, by name or by position. `.pin()` connects nothing.
#[derive(Drop)]
pub enum Pins {
    Named(Items<(Name, Option<Ex>)>),
    Placed(Items<Ex>),
}

/// An item of a module, with the one or more things that it declares in the order of the text.
#[derive(Drop)]
pub enum Item {
    /// Ports of one direction, kind and range: the first, and the names of the others.
    Port {
        first: Port,
        more: Items<Name>,
    },
    /// Nets of one kind and range. `wire w = e` drives the net by the expression.
    Net {
        kind: NetKind,
        range: Option<Range>,
        nets: Items<(Name, Option<Ex>)>,
    },
    /// Parameters with their values, which `localparam` makes local.
    Param {
        local: bool,
        range: Option<Range>,
        values: Items<(Name, Ex)>,
    },
    /// Targets, and what drives them.
    Assign(Items<(Target, Ex)>),
    /// `always`. `@*` and `@(*)` have no events.
    Always {
        events: Items<Event>,
        body: Stmt,
    },
    /// Instances of one module or cell, each with its connections (`()` has none), and values of its parameters.
    Instances {
        module: Name,
        params: Option<Pins>,
        instances: Items<(Name, Option<Pins>)>,
    },
}
