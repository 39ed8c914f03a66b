//! What a gate netlist has, and a netlist together with the cells and supplies that it uses.

use pe_base::Name;
use pe_cells::CellView;
use sqlite_items::Items;

/// A pin of an instance, and the net that it is on. An open pin is on none.
#[derive(Debug, Drop)]
pub struct Connection {
    pub pin: Name,
    pub net: Option<Name>,
}

/// An instance of a cell, by the cell's name.
#[derive(Debug, Drop)]
pub struct Instance {
    pub cell: Name,
    /// In the order of the text.
    pub connections: Items<Connection>,
}

/// A netlist of one module, with nets of one bit. Its nets are the inputs, then the outputs, then the wires.
#[derive(Debug, Drop)]
pub struct Netlist {
    pub name: Name,
    /// In the order of the ports.
    pub inputs: Items<Name>,
    /// In the order of the ports.
    pub outputs: Items<Name>,
    /// In the order of the text.
    pub wires: Items<Name>,
    /// In the order of the text.
    pub instances: Items<Instance>,
}

/// An input that carries a supply, with the supply's number. It has no logic value.
#[derive(Debug, Drop)]
pub struct SupplyPort {
    pub name: Name,
    pub supply: u32,
}

/// A netlist with what it is read against.
#[derive(Debug, Drop)]
pub struct Circuit {
    pub netlist: Netlist,
    /// The inputs that are given a value: those of the RTL, in the order of its ports.
    pub given: Items<Name>,
    /// All other inputs, in the order of the ports.
    pub supplies: Items<SupplyPort>,
    /// The cells that the instances name, each once.
    pub cells: Items<Name>,
    /// The view of each of these cells, in the same order.
    pub views: Items<CellView>,
}
