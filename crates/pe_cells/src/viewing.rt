//! The cell that a library has of a name.

ghost use Rattle.std.specs.Prelude.{◌≡◌, ◌⊎◌, List, ℕ, Result, Err, true, [], OnOk, IfOk, IfErr};
ghost use Rattle.pe_liberty_read.specs.declared.tree.Group.{Group, out-Group};
ghost use Rattle.pe_cells.specs.declared.cell.CellView.{CellView};
ghost use Rattle.pe_cells.specs.declared.fault.CellFault.{CellFault};
ghost use Rattle.pe_cells.specs.declared.fault.CellFault.TheVariants as fault;
ghost use Rattle.pe_cells.specs.Form.{form_faults};
ghost use Rattle.pe_cells.specs.Functions.{AreJudged, is_short_cell, are_short_cells};
ghost use Rattle.pe_cells.specs.Kinds.{pgs_of};
ghost use Rattle.pe_cells.specs.Viewing.{uses_of, IsViewOf, IsView, IsRefusal, IsOutcome, IsAnswer};
ghost use Rattle.pe_cells.specs.WellFormed.{IsWellFormed};

use crate::cell::{CellView, Pg};
use crate::fault::CellFault;
use crate::form::{Found, earliest, faults_of};
use crate::kinds::make_pgs;
use crate::looking::cell;
use crate::naming::{make_all_names, make_pin_names};
use crate::registers::make_register;
use crate::retaining::make_retention;
use crate::signals::make_signals;
use crate::switches::make_switches;
use pe_base::{Name, Want};
use pe_liberty_read::Group;
use sqlite_items::Items;
use std::alloc::Global;

/// The view of a cell of the right form. What is wrong in its functions is added to the faults, and then the view is none.
fn make_view(
    alloc: Global,
    group: &Group,
    pgs: Items<Pg>,
    faults: &mut Items<Found>,
) -> Result<CellView, Want>
    requires short { is_short_cell group.now ≡ true }
    requires pgs { pgs ≡ pgs_of (out-Group group.now).groups }
    requires none { faults.old ≡ [] }
    requires formed { form_faults (pgs_of (out-Group group.now).groups) group.now ≡ [] }
    ensures judged { OnOk result (AreJudged (uses_of (out-Group group.now).groups) faults.new) }
    ensures view { IfOk result (λ view. faults.new ≡ [] → IsViewOf group.now view) }
{
    let groups = group.groups.as_slice();
    let pins = make_pin_names(alloc, groups, pgs.as_slice())?;
    let names = make_all_names(alloc, groups, pgs.as_slice())?;
    let signals = make_signals(alloc, names.as_slice(), pgs.as_slice(), faults, groups)?;
    let register = make_register(alloc, names.as_slice(), pins.as_slice(), faults, groups)?;
    let switches = make_switches(alloc, names.as_slice(), pgs.as_slice(), faults, groups)?;
    let retention = make_retention(group)?;
    Ok(CellView {
        signals,
        pgs,
        register,
        retention,
        switches,
    })
}

/// The view of a cell of the right form, or the attribute that says the earliest function that is none.
fn view_functions(
    alloc: Global,
    name: &Name,
    group: &Group,
    pgs: Items<Pg>,
) -> Result<CellView, CellFault>
    requires short { is_short_cell group.now ≡ true }
    requires pgs { pgs ≡ pgs_of (out-Group group.now).groups }
    requires formed { form_faults (pgs_of (out-Group group.now).groups) group.now ≡ [] }
    ensures { IsAnswer group.now name.now result }
{
    let mut faults = Items::new(alloc);
    let view = make_view(alloc, group, pgs, &mut faults)?;
    match earliest(faults) {
        None => Ok(view),
        Some(fault) => {
            let name = name.copy(alloc)?;
            Err(CellFault::Expression {
                name,
                attribute: fault.attribute,
            })
        }
    }
}

/// The view of a cell.
fn view_cell(alloc: Global, name: &Name, group: &Group) -> Result<CellView, CellFault>
    requires { is_short_cell group.now ≡ true }
    ensures { IsAnswer group.now name.now result }
{
    let pgs = make_pgs(alloc, group.groups.as_slice())?;
    let faults = faults_of(alloc, pgs.as_slice(), group)?;
    match earliest(faults) {
        None => {
            let answer = view_functions(alloc, name, group, pgs);
            answer
        }
        Some(fault) => {
            let name = name.copy(alloc)?;
            Err(CellFault::CellForm {
                name,
                attribute: fault.attribute,
            })
        }
    }
}

/// The cell that a library has of a name: the first of its groups `cell` with that name.
///
/// It is refused for the first of these that holds: the library has no cell of the name, which is `NoCell`; its form is wrong,
/// which is `CellForm`; a function that it uses is none, over its pins and the two names of its register, which is
/// `Expression`. A function that names a well is none, and so is a clear or preset that names a value of the register.
pub fn view(alloc: Global, library: &Group, name: &Name) -> Result<CellView, CellFault>
    // No value in it is longer than a function that may be read: `has_short_functions` tests it.
    requires { are_short_cells library.now ≡ true }
    // What is answered is the view of the library's cell.
    ensures found { IfOk result (IsView library.now name.now) }
    // Its functions are small and name no well, and its numbers are those of pins that are there.
    ensures well_formed { IfOk result IsWellFormed }
    // A refusal is the first that holds.
    ensures refused { IfErr result (IsRefusal library.now name.now) }
    // And what is so of the library and the name is answered, unless memory runs out.
    ensures exact { (outcome : Result CellView CellFault) → IsOutcome library.now name.now outcome → (result ≡ outcome) ⊎ (result ≡ Err fault.Memory) }
{
    match cell(library, name.bytes()) {
        Some(group) => {
            let answer = view_cell(alloc, name, group);
            answer
        }
        None => {
            let name = name.copy(alloc)?;
            Err(CellFault::NoCell { name })
        }
    }
}

/// A library has one view of a name or is refused it for one reason.
pub fn one_view()
    ensures outcome { (library : Group) (name : List ℕ) (a b : Result CellView CellFault) → IsOutcome library name a → IsOutcome library name b → a ≡ b }
    ensures view { (library : Group) (name : List ℕ) (v w : CellView) → IsView library name v → IsView library name w → v ≡ w }
{}
