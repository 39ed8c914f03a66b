//! Five texts, point by point in the order of refusals. Each function goes on from a point, with what was read before it.

ghost use Rattle.std.specs.Prelude.{◌≡◌, true, IfOk, Result};
ghost use Rattle.pe_base.specs.declared.text.Texts.{Texts as Five};
ghost use Rattle.pe_assigns.specs.Form.{is_form, is_some_of};
ghost use Rattle.pe_cells.specs.Functions.{are_short_cells};
ghost use Rattle.pe_intent.specs.Domain.{is_one_domain};
ghost use Rattle.pe_design.specs.declared.design.Design.{Design as Whole};
ghost use Rattle.pe_design.specs.Sound.{IsSound};
ghost use Rattle.pe_front.specs.declared.fault.CheckFault.{CheckFault as Refusal};
ghost use Rattle.pe_front.specs.Points.{Answers};
ghost use Rattle.pe_front.specs.Given.{IsNarrow, IsGiven, IsDesign, FromViews, FromMap, FromNet, FromLib, FromUpf};

use crate::fault::{CheckFault, Fault, Part};
use crate::last::from_supplies;
use crate::reading::{cell_refusal, read_refusal, take_module};
use crate::views::views;
use pe_base::Texts;
use pe_cells::one_view;
use pe_compare::{MapFile, one_map, read_map};
use pe_design::Design;
use pe_instances::{Netlist, read_netlist, used_cells};
use pe_intent::is_one_domain;
use pe_liberty_read::{Group, one_liberty, read_liberty};
use pe_supply::one_supplies;
use pe_text::Lang;
use pe_upf_read::{Intent, one_upf, read_upf};
use pe_verilog_ast::Module;
use pe_verilog_read::{one_source, read_verilog};
use std::alloc::Global;

/// The answer from the point of the cells on.
fn from_views(
    alloc: Global,
    m: Module,
    intent: &Intent,
    library: &Group,
    netlist: Netlist,
) -> Result<Design, CheckFault>
    requires rtl { is_form m ≡ true }
    requires intent { is_one_domain intent.now ≡ true }
    requires library { are_short_cells library.now ≡ true }
    ensures given { Answers (FromViews m intent.now library.now netlist) result }
    ensures sound { IfOk result IsSound }
    ensures narrow { IfOk result IsNarrow }
{
    let cells = used_cells(alloc, &netlist)?;
    match views(alloc, library, cells.as_slice()) {
        Ok(views) => from_supplies(alloc, m, intent, netlist, cells, views),
        Err(fault) => Err(cell_refusal(fault)),
    }
}

/// Whether a map has a line.
fn has_lines(map: &MapFile) -> bool
    ensures { result ≡ is_some_of map.now.lines }
{
    !map.lines.is_empty()
}

/// The answer from the point of the map on.
fn from_map(
    alloc: Global,
    texts: &Texts,
    m: Module,
    intent: &Intent,
    library: &Group,
    netlist: Netlist,
) -> Result<Design, CheckFault>
    requires rtl { is_form m ≡ true }
    requires intent { is_one_domain intent.now ≡ true }
    requires library { are_short_cells library.now ≡ true }
    ensures given { Answers (FromMap texts.now m intent.now library.now netlist) result }
    ensures sound { IfOk result IsSound }
    ensures narrow { IfOk result IsNarrow }
{
    match read_map(alloc, texts.map.as_slice()) {
        Ok(map) => {
            if has_lines(&map) {
                return Err(CheckFault::Refused(Part::Map, Fault::NotBuilt));
            }
            from_views(alloc, m, intent, library, netlist)
        }
        Err(fault) => Err(read_refusal(Part::Map, fault)),
    }
}

/// The answer from the point of the netlist on.
fn from_net(
    alloc: Global,
    texts: &Texts,
    m: Module,
    intent: &Intent,
    library: &Group,
) -> Result<Design, CheckFault>
    requires rtl { is_form m ≡ true }
    requires intent { is_one_domain intent.now ≡ true }
    requires library { are_short_cells library.now ≡ true }
    ensures given { Answers (FromNet texts.now m intent.now library.now) result }
    ensures sound { IfOk result IsSound }
    ensures narrow { IfOk result IsNarrow }
{
    match read_verilog(alloc, Lang::Netlist, texts.net.as_slice()) {
        Ok(source) => match read_netlist(alloc, &source)? {
            Some(netlist) => from_map(alloc, texts, m, intent, library, netlist),
            None => Err(CheckFault::Refused(Part::Net, Fault::NotBuilt)),
        },
        Err(fault) => Err(read_refusal(Part::Net, fault)),
    }
}

/// The answer from the point of the library on.
fn from_lib(alloc: Global, texts: &Texts, m: Module, intent: &Intent) -> Result<Design, CheckFault>
    requires rtl { is_form m ≡ true }
    requires intent { is_one_domain intent.now ≡ true }
    ensures given { Answers (FromLib texts.now m intent.now) result }
    ensures sound { IfOk result IsSound }
    ensures narrow { IfOk result IsNarrow }
{
    match read_liberty(alloc, texts.lib.as_slice()) {
        Ok(library) => from_net(alloc, texts, m, intent, &library),
        Err(fault) => Err(read_refusal(Part::Lib, fault)),
    }
}

/// The answer from the point of the power intent on.
fn from_upf(alloc: Global, texts: &Texts, m: Module) -> Result<Design, CheckFault>
    requires { is_form m ≡ true }
    ensures given { Answers (FromUpf texts.now m) result }
    ensures sound { IfOk result IsSound }
    ensures narrow { IfOk result IsNarrow }
{
    match read_upf(alloc, texts.upf.as_slice()) {
        Ok(intent) => {
            if !is_one_domain(&intent) {
                return Err(CheckFault::Refused(Part::Upf, Fault::NotBuilt));
            }
            from_lib(alloc, texts, m, &intent)
        }
        Err(fault) => Err(read_refusal(Part::Upf, fault)),
    }
}

/// The design that five texts give, or the first refusal.
///
/// Texts are refused at the first of these points: the RTL is not read (`Read`); it is not one module of one-bit assignments
/// (`NotBuilt`); the UPF is not read; it has not one domain with the top and both primary supplies, or has switches, isolation
/// or retention (`NotBuilt`); the library is not read; the netlist is not read; it is not one module of cells on nets of one bit
/// (`NotBuilt`); the map is not read; it has a line (`NotBuilt`); the library has no view of a cell that the netlist uses, in the
/// order of first uses (`Cell`); the power intent has no supplies (`Supply`); the netlist does not fit the RTL, the supplies and
/// the top of the UPF (`NotBuilt` of the netlist); the roots of supplies and the inputs of the RTL are more than 16 (`TooWide` of
/// the RTL).
pub fn design(alloc: Global, texts: &Texts) -> Result<Design, CheckFault>
    // What is answered is what the texts give, unless memory runs out.
    ensures given { Answers (IsGiven texts.now) result }
    // In each state of the roots and for all inputs both sides have one settled map.
    ensures sound { IfOk result IsSound }
    // There are no more than 16 roots and inputs.
    ensures narrow { IfOk result IsNarrow }
{
    match read_verilog(alloc, Lang::Rtl, texts.rtl.as_slice()) {
        Ok(source) => match take_module(alloc, source)? {
            Some(m) => from_upf(alloc, texts, m),
            None => Err(CheckFault::Refused(Part::Rtl, Fault::NotBuilt)),
        },
        Err(fault) => Err(read_refusal(Part::Rtl, fault)),
    }
}

/// Five texts give one answer: no two designs, no two refusals, and not both.
pub fn one_design()
    ensures answer { (t : Five) (a b : Result Whole Refusal) → IsGiven t a → IsGiven t b → a ≡ b }
    ensures one { (t : Five) (d e : Whole) → IsDesign t d → IsDesign t e → d ≡ e }
{
    one_source();
    one_upf();
    one_liberty();
    one_map();
    one_view();
    one_supplies();
}
