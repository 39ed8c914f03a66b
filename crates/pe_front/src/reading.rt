//! Refusals of readers, as those of a check.

ghost use Rattle.std.specs.Prelude.{◌≡◌, IfOk};
ghost use Rattle.pe_front.specs.Refusals.{read_refusal, cell_refusal, supply_refusal};
ghost use Rattle.pe_front.specs.Given.{module_in};

use crate::fault::{CheckFault, Fault, Part};
use pe_assigns::is_rtl_form;
use pe_base::Want;
use pe_cells::CellFault;
use pe_supply::SupplyFault;
use pe_text::ReadFault;
use pe_verilog_ast::{Module, Source};
use std::alloc::Global;

/// The refusal of a text that is not read.
pub(crate) fn read_refusal(part: Part, fault: ReadFault) -> CheckFault
    ensures { result ≡ read_refusal part fault }
{
    match fault {
        ReadFault::Memory => CheckFault::Memory,
        fault => CheckFault::Refused(part, Fault::Read(fault)),
    }
}

/// The refusal of a library without a view of a cell.
pub(crate) fn cell_refusal(fault: CellFault) -> CheckFault
    ensures { result ≡ cell_refusal fault }
{
    match fault {
        CellFault::Memory => CheckFault::Memory,
        fault => CheckFault::Refused(Part::Lib, Fault::Cell(fault)),
    }
}

/// The refusal of a power intent without supplies.
pub(crate) fn supply_refusal(fault: SupplyFault) -> CheckFault
    ensures { result ≡ supply_refusal fault }
{
    match fault {
        SupplyFault::Memory => CheckFault::Memory,
        fault => CheckFault::Refused(Part::Upf, Fault::Supply(fault)),
    }
}

/// The RTL module of a text, if it has just one and that is of one-bit assignments.
pub(crate) fn take_module(alloc: Global, source: Source) -> Result<Option<Module>, Want>
    ensures { IfOk result (λ m. m ≡ module_in source.modules) }
{
    if !is_rtl_form(alloc, &source)? {
        return Ok(None);
    }
    let Source { mut modules } = source;
    Ok(modules.pop())
}
