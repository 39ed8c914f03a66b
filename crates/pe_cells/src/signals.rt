//! The signal pins of a cell.

ghost use Rattle.std.specs.Prelude.{◌≡◌, true, [], OnOk, IfOk};
ghost use Rattle.std.specs.List.{AllZip, flat_map, list_all};
ghost use Rattle.pe_cells.specs.Functions.{is_short_group, Judges, Adds};
ghost use Rattle.pe_cells.specs.Naming.{Pin, pin_of, pins_in, pins_of};
ghost use Rattle.pe_cells.specs.declared.cell.Signal.{Signal};
ghost use Rattle.pe_cells.specs.Viewing.{pg_place as pg_place_in, related_in, has_down as has_down_in, IsSignal, signal_uses};

use crate::cell::{Pg, Signal};
use crate::form::{Found, is_output};
use crate::functions::read_if;
use crate::kinds::is_pin;
use crate::looking::{has_attr, text};
use pe_base::{Name, Want};
use pe_liberty_read::Group;
use sqlite_items::Items;
use std::alloc::Global;

/// A place as it is kept. One past the greatest u32, for which no memory would do, is told as want of it.
pub(crate) fn number(place: usize) -> Result<u32, Want>
    ensures { IfOk result (λ n. n ≡ place) }
{
    match u32::try_from(place) {
        Ok(place) => Ok(place),
        Err(_) => Err(Want),
    }
}

/// The place of the first power or ground pin of the name, or how many there are.
pub(crate) fn pg_place(pgs: &[Pg], name: &[u8]) -> usize
    ensures { result ≡ pg_place_in pgs.now name.now }
{
    for (i, pg) in pgs.iter().enumerate() {
        if pg.name.is(name) {
            return i;
        }
    }
    pgs.len()
}

/// The power or ground pin that an attribute names, if it is there.
fn related(pgs: &[Pg], group: &Group, attribute: &[u8]) -> Result<Option<u32>, Want>
    ensures { IfOk result (λ o. o ≡ related_in pgs.now group.now attribute.now) }
{
    if has_attr(group, attribute) {
        let place = number(pg_place(pgs, text(group, attribute)))?;
        Ok(Some(place))
    } else {
        Ok(None)
    }
}

fn has_down(group: &Group) -> bool
    ensures { result ≡ has_down_in group.now }
{
    is_output(group) && has_attr(group, b"power_down_function")
}

/// The signal pin that a name of a group is.
fn make_signal(
    alloc: Global,
    names: &[Name],
    pgs: &[Pg],
    faults: &mut Items<Found>,
    group: &Group,
    name: &Name,
) -> Result<Signal, Want>
    requires { is_short_group group.now ≡ true }
    ensures judged { OnOk result (Judges (signal_uses names.now (pin_of group.now name.now)) faults.old faults.new) }
    ensures signal { IfOk result (λ s. faults.new ≡ [] → IsSignal names.now pgs.now (pin_of group.now name.now) s) }
{
    let output = is_output(group);
    let has_down = has_down(group);
    let function = read_if(alloc, names, faults, group, b"function", output)?;
    let down = read_if(
        alloc,
        names,
        faults,
        group,
        b"power_down_function",
        has_down,
    )?;
    let power = related(pgs, group, b"related_power_pin")?;
    let ground_pin = related(pgs, group, b"related_ground_pin")?;
    let name = name.copy(alloc)?;
    Ok(Signal {
        name,
        output,
        function,
        down,
        power,
        ground: ground_pin,
    })
}

/// Adds the signal pins of a group, if it is one of signal pins.
fn add_signals(
    alloc: Global,
    names: &[Name],
    pgs: &[Pg],
    faults: &mut Items<Found>,
    group: &Group,
    signals: &mut Items<Signal>,
) -> Result<(), Want>
    requires { is_short_group group.now ≡ true }
    ensures judged { OnOk result (Judges (flat_map (signal_uses names.now) (pins_in group.now)) faults.old faults.new) }
    ensures signals { OnOk result (faults.new ≡ [] → Adds Pin Signal (IsSignal names.now pgs.now) (pins_in group.now) signals.old signals.new) }
{
    if !is_pin(group) {
        return Ok(());
    }
    for name in group.args.as_slice() {
        let signal = make_signal(alloc, names, pgs, faults, group, name)?;
        signals.push(signal)?;
    }
    Ok(())
}

/// The signal pins of a cell, in the order of the text. What is wrong in their functions is added to the faults.
pub(crate) fn make_signals(
    alloc: Global,
    names: &[Name],
    pgs: &[Pg],
    faults: &mut Items<Found>,
    groups: &[Group],
) -> Result<Items<Signal>, Want>
    requires { list_all is_short_group groups.now ≡ true }
    ensures judged { OnOk result (Judges (flat_map (signal_uses names.now) (pins_of groups.now)) faults.old faults.new) }
    ensures signals { IfOk result (λ signals. faults.new ≡ [] → AllZip (IsSignal names.now pgs.now) (pins_of groups.now) signals) }
{
    let mut signals = Items::new(alloc);
    for group in groups {
        add_signals(alloc, names, pgs, faults, group, &mut signals)?;
    }
    Ok(signals)
}
