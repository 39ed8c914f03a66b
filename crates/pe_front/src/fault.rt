//! Why texts give no design.

ghost use Rattle.std.specs.Prelude.{◌≡◌};
ghost use Rattle.pe_front.specs.declared.fault.CheckFault.TheVariants as check;

use pe_base::Want;
use pe_cells::CellFault;
use pe_supply::SupplyFault;
use pe_text::ReadFault;

/// The text that a refusal is about.
#[derive(Clone, Copy, Debug, PartialEq, Eq)]
pub enum Part {
    Rtl,
    Upf,
    Lib,
    Net,
    Map,
}

/// Why a text is refused.
#[derive(Debug, Drop)]
pub enum Fault {
    /// The text is not read.
    Read(ReadFault),
    /// What the text spells is outside the form that is built.
    NotBuilt,
    /// The library has no view of a cell that the netlist uses.
    Cell(CellFault),
    /// The power intent has no supplies.
    Supply(SupplyFault),
    /// There are this many roots of supplies and inputs of the RTL together, which is more than are tried.
    TooWide { count: u32 },
}

/// Why five texts give no design.
#[derive(Debug, Drop)]
pub enum CheckFault {
    /// Memory could not be had.
    Memory,
    /// The first refusal.
    Refused(Part, Fault),
}

impl From<Want> for CheckFault {
    ghost from_gives = { λ _ e. e ≡ check.Memory };

    fn from(_want: Want) -> CheckFault {
        CheckFault::Memory
    }
}
