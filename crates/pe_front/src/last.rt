//! The last points: the circuit, the design and its width.

ghost use Rattle.std.specs.Prelude.{◌≡◌, true, min, IfOk};
ghost use Rattle.std.specs.List.{All};
ghost use Rattle.pe_base.specs.Names.{are_distinct};
ghost use Rattle.pe_supply.specs.WellFormed.{IsWellFormed as IsSupplied};
ghost use Rattle.pe_supply.specs.Steps.{told as told_number};
ghost use Rattle.pe_cells.specs.WellFormed.{IsWellFormed as IsView};
ghost use Rattle.pe_assigns.specs.Form.{is_form, input_names as input_names_of};
ghost use Rattle.pe_intent.specs.Domain.{is_one_domain};
ghost use Rattle.pe_instances.specs.Form.{used_cells as used_cells_of};
ghost use Rattle.pe_design.specs.Sound.{IsSound};
ghost use Rattle.pe_front.specs.declared.fault.Part.TheVariants.{Net};
ghost use Rattle.pe_front.specs.Points.{Answers, BuiltThen};
ghost use Rattle.pe_front.specs.Given.{width as width_of, IsDesignOf, is_fitting as is_fitting_of, FromWidth, FromDesign, FromFit, FromSupplies, IsNarrow};

use crate::fault::{CheckFault, Fault, Part};
use crate::fitting::is_fitting;
use crate::reading::supply_refusal;
use pe_assigns::input_names;
use pe_base::{Name, Want};
use pe_cells::CellView;
use pe_design::Design;
use pe_instances::{Circuit, Netlist, make_circuit};
use pe_intent::{Function, primary_supply};
use pe_supply::{Supplies, build};
use pe_upf_read::Intent;
use pe_verilog_ast::Module;
use sqlite_items::Items;
use std::alloc::Global;

/// How many bits an assignment may have.
const WIDEST: usize = 16;

/// How many bits an assignment has, or the greatest number where there are more.
fn width(alloc: Global, d: &Design) -> Result<usize, Want>
    ensures { IfOk result (λ n. n ≡ min (width_of d.now) usize.MAX) }
{
    let inputs = input_names(alloc, &d.rtl)?;
    Ok(d.supplies.roots.len().saturating_add(inputs.len()))
}

/// A number, or the greatest where it is larger.
fn told(count: usize) -> u32
    ensures { result ≡ told_number count }
{
    match u32::try_from(count) {
        Ok(count) => count,
        Err(_) => u32::MAX,
    }
}

/// The design, unless it is too wide.
fn from_width(alloc: Global, d: Design) -> Result<Design, CheckFault>
    requires { IsSound d }
    ensures given { Answers (FromWidth d) result }
    ensures sound { IfOk result IsSound }
    ensures narrow { IfOk result IsNarrow }
{
    let count = width(alloc, &d)?;
    if count > WIDEST {
        let count = told(count);
        return Err(CheckFault::Refused(Part::Rtl, Fault::TooWide { count }));
    }
    Ok(d)
}

/// The design of these parts.
fn make_design(m: Module, intent: &Intent, supplies: Supplies, circuit: Circuit) -> Design
    requires { is_one_domain intent.now ≡ true }
    ensures { IsDesignOf m intent.now supplies circuit result }
{
    let power = primary_supply(intent, &supplies, Function::Power);
    let ground_supply = primary_supply(intent, &supplies, Function::Ground);
    Design {
        rtl: m,
        supplies,
        power,
        ground: ground_supply,
        circuit,
    }
}

/// The answer from the point on at which a netlist has to fit.
fn from_circuit(
    alloc: Global,
    m: Module,
    intent: &Intent,
    supplies: Supplies,
    circuit: Circuit,
) -> Result<Design, CheckFault>
    requires rtl { is_form m ≡ true }
    requires intent { is_one_domain intent.now ≡ true }
    requires supplies { IsSupplied supplies }
    requires cells { are_distinct circuit.cells ≡ true }
    requires views { All IsView circuit.views }
    requires inputs { circuit.given ≡ input_names_of m }
    ensures given { Answers (BuiltThen (is_fitting_of m intent.now supplies circuit) Net (FromDesign m intent.now supplies circuit)) result }
    ensures sound { IfOk result IsSound }
    ensures narrow { IfOk result IsNarrow }
{
    if !is_fitting(alloc, &m, intent, &supplies, &circuit)? {
        return Err(CheckFault::Refused(Part::Net, Fault::NotBuilt));
    }
    let design = make_design(m, intent, supplies, circuit);
    from_width(alloc, design)
}

/// The answer from the point on at which a netlist has to fit.
fn from_fit(
    alloc: Global,
    m: Module,
    intent: &Intent,
    netlist: Netlist,
    cells: Items<Name>,
    views: Items<CellView>,
    supplies: Supplies,
) -> Result<Design, CheckFault>
    requires rtl { is_form m ≡ true }
    requires intent { is_one_domain intent.now ≡ true }
    requires supplies { IsSupplied supplies }
    requires cells { cells ≡ used_cells_of netlist }
    requires views { All IsView views }
    ensures given { Answers (FromFit m intent.now netlist views supplies) result }
    ensures sound { IfOk result IsSound }
    ensures narrow { IfOk result IsNarrow }
{
    let names = supplies.names.as_slice();
    let circuit = make_circuit(alloc, netlist, &m, names, cells, views)?;
    from_circuit(alloc, m, intent, supplies, circuit)
}

/// The answer from the point of the supplies on.
pub(crate) fn from_supplies(
    alloc: Global,
    m: Module,
    intent: &Intent,
    netlist: Netlist,
    cells: Items<Name>,
    views: Items<CellView>,
) -> Result<Design, CheckFault>
    requires rtl { is_form m ≡ true }
    requires intent { is_one_domain intent.now ≡ true }
    requires cells { cells ≡ used_cells_of netlist }
    requires views { All IsView views }
    ensures given { Answers (FromSupplies m intent.now netlist views) result }
    ensures sound { IfOk result IsSound }
    ensures narrow { IfOk result IsNarrow }
{
    match build(alloc, intent) {
        Ok(supplies) => from_fit(alloc, m, intent, netlist, cells, views, supplies),
        Err(fault) => Err(supply_refusal(fault)),
    }
}
