//! Supplies, their switches and the rows of the power state table.

use pe_base::Name;
use pe_bool_expr::Expr;
use sqlite_items::Items;

/// What a row of the power state table says of a supply.
#[derive(Clone, Copy, Debug, PartialEq, Eq)]
pub enum Level {
    On,
    Off,
    /// It may be on or off.
    Any,
}

/// A row of the power state table.
#[derive(Debug, Drop)]
pub struct Row {
    pub name: Name,
    /// One for each supply of the table.
    pub levels: Items<Level>,
}

/// A power switch. Supplies are numbers, counted from 0.
#[derive(Debug, Drop)]
pub struct Switch {
    pub name: Name,
    /// The supply that it drives.
    pub output: u32,
    /// The supply that it takes.
    pub input: u32,
    /// Its control ports, each with the path of the net that it is on.
    pub controls: Items<(Name, Name)>,
    /// Where it conducts, over its control ports.
    pub on: Expr,
    /// Where it does not conduct, over its control ports.
    pub off: Items<Expr>,
}

/// The supplies of a power intent. Each is a root, whose state is given from outside, or the output of one switch.
#[derive(Debug, Drop)]
pub struct Supplies {
    /// Each name once, with its supply.
    pub names: Items<(Name, u32)>,
    /// The supplies that no switch drives.
    pub roots: Items<u32>,
    pub switches: Items<Switch>,
    /// Supply sets: name, power and ground.
    pub sets: Items<(Name, Option<u32>, Option<u32>)>,
    /// The supplies that the power state table names.
    pub table: Items<u32>,
    pub rows: Items<Row>,
}
