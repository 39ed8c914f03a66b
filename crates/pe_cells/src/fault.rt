//! Why a library has no cell of a name.

ghost use Rattle.std.specs.Prelude.{◌≡◌};
ghost use Rattle.pe_cells.specs.declared.fault.CellFault.TheVariants as fault;

use pe_base::{Name, Want};

/// Why a library's cell is not taken. `name` is the cell's name.
#[derive(Debug, Drop)]
pub enum CellFault {
    /// Memory could not be had.
    Memory,
    /// The library has no cell of the name.
    NoCell { name: Name },
    /// The cell's form is wrong: of what is wrong, this attribute or group stands earliest in the text. One that is missing is
    /// told at the place of the group that needs it.
    CellForm { name: Name, attribute: Name },
    /// A function of the cell is none over its pins: of those that are none, this attribute stands earliest in the text.
    Expression { name: Name, attribute: Name },
}

impl From<Want> for CellFault {
    ghost from_gives = { λ _ e. e ≡ fault.Memory };

    fn from(_want: Want) -> CellFault {
        CellFault::Memory
    }
}
