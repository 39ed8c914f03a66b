//! The switches of a cell.

ghost use Rattle.std.specs.Prelude.{◌≡◌, true, [], ◌∷◌, map, OnOk, IfOk};
ghost use Rattle.std.specs.List.{AllZip, list_all};
ghost use Rattle.pe_cells.specs.declared.cell.CellSwitch.{CellSwitch};
ghost use Rattle.pe_cells.specs.Functions.{is_short_group, Judges, Adds};
ghost use Rattle.pe_cells.specs.Viewing.{Output, output_of, is_switch as is_switch_of, count_pgs as count_pgs_of, outputs_in, outputs_of, switch_use, IsSwitch};

use crate::cell::{CellSwitch, Pg};
use crate::form::{Found, has_internal};
use crate::functions::read;
use crate::kinds::is_pg_pin;
use crate::looking::{has_attr, text};
use crate::retaining::behind;
use crate::signals::{number, pg_place};
use pe_base::{Name, Want};
use pe_liberty_read::Group;
use sqlite_items::Items;
use std::alloc::Global;

/// Whether a switch drives the pins of the group.
fn is_switch(group: &Group) -> bool
    ensures { result ≡ is_switch_of group.now }
{
    is_pg_pin(group)
        && has_internal(group)
        && has_attr(group, b"pg_function")
        && has_attr(group, b"switch_function")
}

/// How many power and ground pins a group is.
fn count_pgs(group: &Group) -> usize
    ensures { result ≡ count_pgs_of group.now }
{
    if is_pg_pin(group) {
        group.args.len()
    } else {
        0
    }
}

/// Adds the switch that drives the pin of a group with this place, if its function is right.
fn add_switch(
    alloc: Global,
    names: &[Name],
    pgs: &[Pg],
    faults: &mut Items<Found>,
    group: &Group,
    place: usize,
    switches: &mut Items<CellSwitch>,
) -> Result<(), Want>
    requires { is_short_group group.now ≡ true }
    ensures judged { OnOk result (Judges (switch_use names.now (output_of group.now place) ∷ []) faults.old faults.new) }
    ensures switches { OnOk result (faults.new ≡ [] → Adds Output CellSwitch (IsSwitch names.now pgs.now) (output_of group.now place ∷ []) switches.old switches.new) }
{
    let answer = read(alloc, names, faults, group, b"switch_function")?;
    match answer {
        Some(function) => {
            let output = number(place)?;
            let input = number(pg_place(pgs, text(group, b"pg_function")))?;
            switches.push(CellSwitch {
                output,
                input,
                function,
            })?;
            Ok(())
        }
        None => Ok(()),
    }
}

/// Adds the switches that drive the pins of a group, of which the first has this place.
fn add_switches(
    alloc: Global,
    names: &[Name],
    pgs: &[Pg],
    faults: &mut Items<Found>,
    group: &Group,
    first: usize,
    switches: &mut Items<CellSwitch>,
) -> Result<(), Want>
    requires { is_short_group group.now ≡ true }
    ensures judged { OnOk result (Judges (map (switch_use names.now) (outputs_in first group.now)) faults.old faults.new) }
    ensures switches { OnOk result (faults.new ≡ [] → Adds Output CellSwitch (IsSwitch names.now pgs.now) (outputs_in first group.now) switches.old switches.new) }
{
    if !is_switch(group) {
        return Ok(());
    }
    let last = behind(first, group.args.len())?;
    for place in first..last {
        add_switch(alloc, names, pgs, faults, group, place, switches)?;
    }
    Ok(())
}

/// The switches of a cell, in the order of the pins that they drive. What is wrong in their functions is added to the faults.
pub(crate) fn make_switches(
    alloc: Global,
    names: &[Name],
    pgs: &[Pg],
    faults: &mut Items<Found>,
    groups: &[Group],
) -> Result<Items<CellSwitch>, Want>
    requires { list_all is_short_group groups.now ≡ true }
    ensures judged { OnOk result (Judges (map (switch_use names.now) (outputs_of groups.now)) faults.old faults.new) }
    ensures switches { IfOk result (λ switches. faults.new ≡ [] → AllZip (IsSwitch names.now pgs.now) (outputs_of groups.now) switches) }
{
    let mut switches = Items::new(alloc);
    let mut place = 0;
    for group in groups {
        add_switches(alloc, names, pgs, faults, group, place, &mut switches)?;
        place = behind(place, count_pgs(group))?;
    }
    Ok(switches)
}
