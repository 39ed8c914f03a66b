//! What an intent makes, ties, uses and says of supplies: its commands as plain lists, each in the order of the text.

use pe_base::Name;
use sqlite_items::Items;

/// Something that a command speaks of, which some command has to make.
#[derive(Debug, Drop)]
pub enum Use {
    /// A supply, by any of its names.
    Supply(Name),
    /// A supply port, or the output port of a switch.
    Port(Name),
    /// A supply set.
    Set(Name),
    /// A power state table.
    Table(Name),
    /// The input port of a switch, and behind it the one that the switch has.
    Input(Name, Name),
}

/// A supply set and the names of its nets.
#[derive(Debug, Drop)]
pub struct SetText {
    pub name: Name,
    pub power_net: Option<Name>,
    pub ground_net: Option<Name>,
}

/// A power state table and the names of its supplies.
#[derive(Debug, Drop)]
pub struct TableText {
    pub name: Name,
    pub supplies: Items<Name>,
}

/// A state of a supply port: whether the supply is on in it.
#[derive(Debug, Drop)]
pub struct PortState {
    pub port: Name,
    pub name: Name,
    pub on: bool,
}

/// A row of the power state table, as it is written.
#[derive(Debug, Drop)]
pub struct RowText {
    pub name: Name,
    pub words: Items<Name>,
}

/// A power switch, as it is written.
#[derive(Debug, Drop)]
pub struct SwitchText {
    pub name: Name,
    /// Its output port, and the net that this is on; its input port likewise.
    pub output: (Name, Name),
    pub input: (Name, Name),
    pub controls: Items<(Name, Name)>,
    /// The expressions of its on state and of its off states.
    pub on: Name,
    pub off: Items<Name>,
}

/// What commands make, tie, use and say.
#[derive(Debug, Drop)]
pub struct Plan {
    /// The names of supplies that they make.
    pub names: Items<Name>,
    /// Those of them that are supply ports or output ports of switches.
    pub ports: Items<Name>,
    /// Those of them that are supply nets.
    pub nets: Items<Name>,
    /// Ports, each with the net that it is tied to.
    pub ties: Items<(Name, Name)>,
    pub uses: Items<Use>,
    pub sets: Items<SetText>,
    pub tables: Items<TableText>,
    pub states: Items<PortState>,
    pub rows: Items<RowText>,
    pub switches: Items<SwitchText>,
}
