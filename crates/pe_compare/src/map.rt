//! The map file as a tree.

use pe_base::Name;
use sqlite_items::Items;

/// The lines of a map file, in the order of the text and without the empty ones.
#[derive(Debug, Drop)]
pub struct MapFile {
    pub lines: Items<MapLine>,
}

/// What a line of a map file says. Where it has a name of each side, the RTL's stands first.
#[derive(Debug, Drop)]
pub enum MapLine {
    /// The top modules.
    Top(Name, Name),
    /// The clock input of the RTL.
    Clock(Name),
    /// The top port of the netlist that is a root of the supplies: the port, and then the supply.
    Supply(Name, Name),
    /// The ports that belong together.
    Port(Name, Name),
    /// An input of the netlist has this value.
    Tie(Name, bool),
    /// The registers that belong together, with `inv` as complements.
    Reg { rtl: Name, net: Name, inv: bool },
    /// A register of the RTL has none in the netlist.
    Drop(Name),
    /// Each row of this name may be the first of a run.
    Start(Name),
    /// A row of the second name may follow one of the first.
    Step(Name, Name),
}
