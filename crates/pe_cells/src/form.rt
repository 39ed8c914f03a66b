//! What is wrong with the form of a cell.

ghost use Rattle.std.specs.Prelude.{◌≡◌, ◌++◌, drop, OnOk, IfOk};
ghost use Rattle.pe_cells.specs.Looking.{first_of};
ghost use Rattle.std.specs.Option.{option_copied};
ghost use Rattle.pe_cells.specs.Form.{found_if, no_later as no_later_of, earliest as earliest_of, excluded_attrs, excluded_groups, register_faults, all_group_faults, first_ff as first_ff_in, is_excluded as is_excluded_word, excluded_in, checked, pg_faults, has_type as has_type_group, has_internal as has_internal_group, checked_name, is_output as is_output_group, has_direction as has_direction_group, has_retention_form as has_retention_form_of, is_retention_pin as is_retention_pin_attr, retention_faults, direction_faults, related_faults, pin_faults, is_clear_preset as is_clear_preset_word, ff_faults, group_faults, form_faults};

use crate::cell::Pg;
use crate::kinds::{is_ff, is_internal, is_open, is_pg_pin, is_pin, kind_in, kind_of};
use crate::looking::{first, has_attr, place, same, text};
use crate::repeats::{add_second_ffs, add_second_retentions};
use pe_base::{Name, Want};
use pe_liberty_read::{Attr, Group};
use sqlite_items::Items;
use std::alloc::Global;

/// Something wrong, by the attribute or group that it is told by.
#[derive(Drop)]
pub(crate) struct Found {
    /// The byte of the text at which it stands.
    pub(crate) place: u32,
    pub(crate) attribute: Name,
}

/// Adds a fault, if it is there.
pub(crate) fn add_if(
    alloc: Global,
    faults: &mut Items<Found>,
    here: bool,
    place: u32,
    name: &[u8],
) -> Result<(), Want>
    ensures { OnOk result (faults.new ≡ faults.old ++ found_if here place name.now) }
{
    if here {
        let attribute = Name::new(alloc, name)?;
        faults.push(Found { place, attribute })?;
    }
    Ok(())
}

/// The one of two faults that stands earlier, and the first of two at one place.
fn no_later(fault: Found, other: Option<Found>) -> Option<Found>
    ensures { result ≡ no_later_of fault other }
{
    match other {
        None => Some(fault),
        Some(other) => {
            if fault.place <= other.place {
                Some(fault)
            } else {
                Some(other)
            }
        }
    }
}

/// The earliest of some faults.
#[tactic(auto, using(crate::proofs::Earliest::earliest_push))]
pub(crate) fn earliest(faults: Items<Found>) -> Option<Found>
    ensures { result ≡ earliest_of faults }
{
    let mut left = faults;
    let mut best = None;
    while let Some(fault) = left.pop() {
        best = no_later(fault, best);
    }
    best
}

fn is_excluded(word: &[u8]) -> bool
    ensures { result ≡ is_excluded_word word.now }
{
    same(word, b"latch")
        || same(word, b"latch_bank")
        || same(word, b"ff_bank")
        || same(word, b"statetable")
        || same(word, b"bus")
        || same(word, b"bundle")
        || same(word, b"memory")
        || same(word, b"three_state")
        || same(word, b"state_function")
        || same(word, b"clock_gating_integrated_cell")
}

/// Adds what stands in a group and gives the cell another meaning.
fn add_excluded(alloc: Global, faults: &mut Items<Found>, group: &Group) -> Result<(), Want>
    ensures { OnOk result (faults.new ≡ faults.old ++ excluded_in group.now) }
{
    add_excluded_attrs(alloc, faults, group.attrs.as_slice())?;
    add_excluded_groups(alloc, faults, group.groups.as_slice())?;
    Ok(())
}

fn add_excluded_attrs(alloc: Global, faults: &mut Items<Found>, attrs: &[Attr]) -> Result<(), Want>
    ensures { OnOk result (faults.new ≡ faults.old ++ excluded_attrs attrs.now) }
{
    for attr in attrs {
        let name = attr.name.bytes();
        add_if(alloc, faults, is_excluded(name), attr.place, name)?;
    }
    Ok(())
}

fn add_excluded_groups(
    alloc: Global,
    faults: &mut Items<Found>,
    groups: &[Group],
) -> Result<(), Want>
    ensures { OnOk result (faults.new ≡ faults.old ++ excluded_groups groups.now) }
{
    for group in groups {
        let kind = group.kind.bytes();
        add_if(alloc, faults, is_excluded(kind), group.place, kind)?;
    }
    Ok(())
}

/// Adds an attribute that is wrong where it stands, or that is missing where it is needed.
#[tactic(auto, unfolding(crate::specs::Form::checked))]
fn check(
    alloc: Global,
    faults: &mut Items<Found>,
    group: &Group,
    name: &[u8],
    needed: bool,
    right: bool,
) -> Result<(), Want>
    ensures { OnOk result (faults.new ≡ faults.old ++ checked group.now name.now needed right) }
{
    let here = if has_attr(group, name) {
        !right
    } else {
        needed
    };
    add_if(alloc, faults, here, place(group, name), name)
}

#[tactic(auto, unfolding(crate::specs::Form::has_type))]
fn has_type(group: &Group) -> bool
    ensures { result ≡ has_type_group group.now }
{
    match kind_of(text(group, b"pg_type")) {
        Some(_) => true,
        None => false,
    }
}

#[tactic(auto, unfolding(crate::specs::Form::has_internal))]
pub(crate) fn has_internal(group: &Group) -> bool
    ensures { result ≡ has_internal_group group.now }
{
    is_internal(kind_in(group))
}

/// Adds an attribute that has to name a power or ground pin and does not, or that is missing where it is needed.
#[tactic(auto, unfolding(crate::specs::Form::checked_name))]
fn check_name(
    alloc: Global,
    faults: &mut Items<Found>,
    pgs: &[Pg],
    group: &Group,
    name: &[u8],
    needed: bool,
) -> Result<(), Want>
    ensures { OnOk result (faults.new ≡ faults.old ++ checked_name pgs.now group.now name.now needed) }
{
    let open = is_open(pgs, text(group, name));
    check(alloc, faults, group, name, needed, open)?;
    Ok(())
}

/// Adds what is wrong with a power or ground pin. An internal one has to be what a switch drives.
fn check_pg(alloc: Global, faults: &mut Items<Found>, pgs: &[Pg], group: &Group) -> Result<(), Want>
    ensures { OnOk result (faults.new ≡ faults.old ++ pg_faults pgs.now group.now) }
{
    let internal = has_internal(group);
    check(alloc, faults, group, b"pg_type", true, has_type(group))?;
    check_name(alloc, faults, pgs, group, b"pg_function", internal)?;
    check(alloc, faults, group, b"switch_function", internal, true)?;
    Ok(())
}

#[tactic(auto, unfolding(crate::specs::Form::is_output))]
pub(crate) fn is_output(group: &Group) -> bool
    ensures { result ≡ is_output_group group.now }
{
    same(text(group, b"direction"), b"output")
}

#[tactic(auto, unfolding(crate::specs::Form::has_direction))]
fn has_direction(group: &Group) -> bool
    ensures { result ≡ has_direction_group group.now }
{
    is_output(group) || same(text(group, b"direction"), b"input")
}

pub(crate) fn is_retention_pin(attr: &Attr) -> bool
    ensures { result ≡ is_retention_pin_attr attr.now }
{
    attr.name.is(b"retention_pin")
}

/// The second of some values, and the empty text where there is none.
pub(crate) fn second(values: &[Name]) -> &[u8]
    ensures { result.now ≡ first_of (drop 1 values.now) }
{
    match values {
        [_, value, ..] => value.bytes(),
        _ => b"".as_slice(),
    }
}

/// Whether it has a class and a value at which the pin does nothing.
fn has_retention_form(attr: &Attr) -> bool
    ensures { result ≡ has_retention_form_of attr.now }
{
    let class = first(attr.values.as_slice());
    let disable = second(attr.values.as_slice());
    (same(class, b"save") || same(class, b"restore"))
        && (same(disable, b"0") || same(disable, b"1"))
}

fn check_retention(alloc: Global, faults: &mut Items<Found>, attrs: &[Attr]) -> Result<(), Want>
    ensures { OnOk result (faults.new ≡ faults.old ++ retention_faults attrs.now) }
{
    for attr in attrs {
        let here = is_retention_pin(attr) && !has_retention_form(attr);
        add_if(alloc, faults, here, attr.place, attr.name.bytes())?;
    }
    Ok(())
}

/// Adds what is wrong with what a signal pin is.
fn check_direction(alloc: Global, faults: &mut Items<Found>, group: &Group) -> Result<(), Want>
    ensures { OnOk result (faults.new ≡ faults.old ++ direction_faults group.now) }
{
    check(
        alloc,
        faults,
        group,
        b"direction",
        true,
        has_direction(group),
    )?;
    check(alloc, faults, group, b"function", is_output(group), true)?;
    Ok(())
}

/// Adds what is wrong with what a signal pin depends on.
fn check_related(
    alloc: Global,
    faults: &mut Items<Found>,
    pgs: &[Pg],
    group: &Group,
) -> Result<(), Want>
    ensures { OnOk result (faults.new ≡ faults.old ++ related_faults pgs.now group.now) }
{
    check_name(alloc, faults, pgs, group, b"related_power_pin", false)?;
    check_name(alloc, faults, pgs, group, b"related_ground_pin", false)?;
    Ok(())
}

/// Adds what is wrong with a signal pin.
fn check_pin(
    alloc: Global,
    faults: &mut Items<Found>,
    pgs: &[Pg],
    group: &Group,
) -> Result<(), Want>
    ensures { OnOk result (faults.new ≡ faults.old ++ pin_faults pgs.now group.now) }
{
    check_direction(alloc, faults, group)?;
    check_related(alloc, faults, pgs, group)?;
    check_retention(alloc, faults, group.attrs.as_slice())?;
    Ok(())
}

#[tactic(auto, unfolding(crate::specs::Form::is_clear_preset))]
fn is_clear_preset(word: &[u8]) -> bool
    ensures { result ≡ is_clear_preset_word word.now }
{
    same(word, b"L") || same(word, b"H") || same(word, b"X") || same(word, b"N") || same(word, b"T")
}

/// Adds what is wrong with a register.
fn check_ff(alloc: Global, faults: &mut Items<Found>, group: &Group) -> Result<(), Want>
    ensures { OnOk result (faults.new ≡ faults.old ++ register_faults group.now) }
{
    add_if(alloc, faults, group.args.len() < 2, group.place, b"ff")?;
    check(alloc, faults, group, b"next_state", true, true)?;
    check(alloc, faults, group, b"clocked_on", true, true)?;
    let first = is_clear_preset(text(group, b"clear_preset_var1"));
    check(alloc, faults, group, b"clear_preset_var1", false, first)?;
    let second = is_clear_preset(text(group, b"clear_preset_var2"));
    check(alloc, faults, group, b"clear_preset_var2", false, second)?;
    Ok(())
}

/// Adds what is wrong with a group of a cell.
fn check_group(
    alloc: Global,
    faults: &mut Items<Found>,
    pgs: &[Pg],
    group: &Group,
) -> Result<(), Want>
    ensures { OnOk result (faults.new ≡ faults.old ++ group_faults pgs.now group.now) }
{
    if is_pg_pin(group) {
        check_pg(alloc, faults, pgs, group)?;
        return Ok(());
    }
    if is_pin(group) {
        add_excluded(alloc, faults, group)?;
        check_pin(alloc, faults, pgs, group)?;
    }
    Ok(())
}

fn check_groups(
    alloc: Global,
    faults: &mut Items<Found>,
    pgs: &[Pg],
    groups: &[Group],
) -> Result<(), Want>
    ensures { OnOk result (faults.new ≡ faults.old ++ all_group_faults pgs.now groups.now) }
{
    for group in groups {
        check_group(alloc, faults, pgs, group)?;
    }
    Ok(())
}

/// The first register among the groups of a cell.
pub(crate) fn first_ff(groups: &[Group]) -> Option<&Group>
    ensures { option_copied result ≡ first_ff_in groups.now }
{
    groups.iter().find(|group| is_ff(group))
}

fn check_first_ff(alloc: Global, faults: &mut Items<Found>, groups: &[Group]) -> Result<(), Want>
    ensures { OnOk result (faults.new ≡ faults.old ++ ff_faults (first_ff_in groups.now)) }
{
    match first_ff(groups) {
        Some(group) => check_ff(alloc, faults, group),
        None => Ok(()),
    }
}

/// What is wrong with the form of a cell.
pub(crate) fn faults_of(alloc: Global, pgs: &[Pg], cell: &Group) -> Result<Items<Found>, Want>
    ensures { IfOk result (λ faults. faults ≡ form_faults pgs.now cell.now) }
{
    let mut faults = Items::new(alloc);
    let groups = cell.groups.as_slice();
    add_excluded(alloc, &mut faults, cell)?;
    let coarse = same(text(cell, b"switch_cell_type"), b"coarse_grain");
    check(alloc, &mut faults, cell, b"switch_cell_type", false, coarse)?;
    check_groups(alloc, &mut faults, pgs, groups)?;
    check_first_ff(alloc, &mut faults, groups)?;
    add_second_ffs(alloc, &mut faults, groups)?;
    add_second_retentions(alloc, &mut faults, groups, b"save")?;
    add_second_retentions(alloc, &mut faults, groups, b"restore")?;
    Ok(faults)
}
