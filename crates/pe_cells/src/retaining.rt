//! What a cell keeps while its primary power is off.

ghost use Rattle.std.specs.Prelude.{◌≡◌, ◌+◌, Some, IfOk, find, length};
ghost use Rattle.std.specs.Option.{option_copied};
ghost use Rattle.pe_liberty_read.specs.declared.tree.Group.{Group, out-Group};
ghost use Rattle.pe_cells.specs.Form.{has_class as has_class_of};
ghost use Rattle.pe_cells.specs.Naming.{pins_in};
ghost use Rattle.pe_cells.specs.Viewing.{retention_pin as retention_pin_of, retention_pin_by, retention_pin_from, retention_of};

use crate::cell::{CellRetention, RetentionPin};
use crate::form::{first_ff, second};
use crate::kinds::is_pin;
use crate::looking::{has_attr, same};
use crate::repeats::has_class;
use crate::signals::number;
use pe_base::Want;
use pe_liberty_read::{Attr, Group};

/// The attribute that makes the pins of a group retention pins of a class, if there is one.
fn class_attr<'a>(group: &'a Group, class: &[u8]) -> Option<&'a Attr>
    ensures { option_copied result ≡ find (has_class_of class.now) (out-Group group.now).attrs }
{
    group
        .attrs
        .as_slice()
        .iter()
        .find(|attr| has_class(attr, class))
}

/// The retention pin that an attribute makes the pin with this place.
fn pin_by(place: usize, attr: &Attr) -> Result<RetentionPin, Want>
    ensures { IfOk result (λ pin. Some pin ≡ retention_pin_by place (Some attr.now)) }
{
    let pin = number(place)?;
    let disable = same(second(attr.values.as_slice()), b"1");
    Ok(RetentionPin {
        pin,
        disable,
        rising: None,
    })
}

/// The place behind some more pins.
pub(crate) fn behind(place: usize, more: usize) -> Result<usize, Want>
    ensures { IfOk result (λ n. n ≡ place + more) }
{
    match place.checked_add(more) {
        Some(place) => Ok(place),
        None => Err(Want),
    }
}

/// How many signal pins a group is.
fn count_pins(group: &Group) -> usize
    ensures { result ≡ length (pins_in group.now) }
{
    if is_pin(group) { group.args.len() } else { 0 }
}

/// The first retention pin of a class among the signal pins of a group, of which the first has this place.
fn pin_in(group: &Group, class: &[u8], place: usize) -> Result<Option<RetentionPin>, Want>
    ensures { IfOk result (λ pin. pin ≡ retention_pin_from class.now place (pins_in group.now)) }
{
    if count_pins(group) == 0 {
        return Ok(None);
    }
    match class_attr(group, class) {
        Some(attr) => {
            let pin = pin_by(place, attr)?;
            Ok(Some(pin))
        }
        None => Ok(None),
    }
}

/// The first retention pin of a class.
fn retention_pin(groups: &[Group], class: &[u8]) -> Result<Option<RetentionPin>, Want>
    ensures { IfOk result (λ pin. pin ≡ retention_pin_of class.now groups.now) }
{
    let mut place = 0;
    for group in groups {
        let found = pin_in(group, class, place)?;
        if found.is_some() {
            return Ok(found);
        }
        place = behind(place, count_pins(group))?;
    }
    Ok(None)
}

/// What a cell keeps: it says so and has a register.
pub(crate) fn make_retention(cell: &Group) -> Result<Option<CellRetention>, Want>
    ensures { IfOk result (λ retention. retention ≡ retention_of cell.now) }
{
    let groups = cell.groups.as_slice();
    if has_attr(cell, b"retention_cell") && first_ff(groups).is_some() {
        let save = retention_pin(groups, b"save")?;
        let restore = retention_pin(groups, b"restore")?;
        Ok(Some(CellRetention { save, restore }))
    } else {
        Ok(None)
    }
}
