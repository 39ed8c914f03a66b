//! What may stand in a cell only once.

ghost use Rattle.std.specs.Prelude.{◌≡◌, ◌++◌, codes, OnOk, IfOk};
ghost use Rattle.pe_cells.specs.Form.{has_class as has_class_of, class_places, names_places, places_of, ff_places, all_at, repeated};

use crate::form::{Found, is_retention_pin};
use crate::kinds::{is_ff, is_pin};
use crate::looking::{first, same};
use pe_base::{Name, Want};
use pe_liberty_read::{Attr, Group};
use sqlite_items::Items;
use std::alloc::Global;

/// Adds a fault for each place.
fn add_all(
    alloc: Global,
    faults: &mut Items<Found>,
    name: &[u8],
    places: &[u32],
) -> Result<(), Want>
    ensures { OnOk result (faults.new ≡ faults.old ++ all_at name.now places.now) }
{
    for place in places {
        let attribute = Name::new(alloc, name)?;
        let place = *place;
        faults.push(Found { place, attribute })?;
    }
    Ok(())
}

/// Adds a fault for each place but the first.
fn add_repeated(
    alloc: Global,
    faults: &mut Items<Found>,
    name: &[u8],
    places: &[u32],
) -> Result<(), Want>
    ensures { OnOk result (faults.new ≡ faults.old ++ repeated name.now places.now) }
{
    if !places.is_empty() {
        add_all(alloc, faults, name, &places[1..])?;
    }
    Ok(())
}

/// The places of the registers.
fn make_ff_places(alloc: Global, groups: &[Group]) -> Result<Items<u32>, Want>
    ensures { IfOk result (λ places. places ≡ ff_places groups.now) }
{
    let mut places = Items::new(alloc);
    for group in groups {
        if is_ff(group) {
            places.push(group.place)?;
        }
    }
    Ok(places)
}

/// Adds the registers behind the first.
pub(crate) fn add_second_ffs(
    alloc: Global,
    faults: &mut Items<Found>,
    groups: &[Group],
) -> Result<(), Want>
    ensures { OnOk result (faults.new ≡ faults.old ++ repeated (codes "ff") (ff_places groups.now)) }
{
    let places = make_ff_places(alloc, groups)?;
    add_repeated(alloc, faults, b"ff", places.as_slice())?;
    Ok(())
}

/// Whether an attribute makes a pin a retention pin of a class.
pub(crate) fn has_class(attr: &Attr, class: &[u8]) -> bool
    ensures { result ≡ has_class_of class.now attr.now }
{
    is_retention_pin(attr) && same(first(attr.values.as_slice()), class)
}

fn add_class_places(places: &mut Items<u32>, attrs: &[Attr], class: &[u8]) -> Result<(), Want>
    ensures { OnOk result (places.new ≡ places.old ++ class_places class.now attrs.now) }
{
    for attr in attrs {
        if has_class(attr, class) {
            places.push(attr.place)?;
        }
    }
    Ok(())
}

/// Adds the places once for each name of a pin.
fn add_names_places(
    places: &mut Items<u32>,
    names: &[Name],
    attrs: &[Attr],
    class: &[u8],
) -> Result<(), Want>
    ensures { OnOk result (places.new ≡ places.old ++ names_places class.now attrs.now names.now) }
{
    for _name in names {
        add_class_places(places, attrs, class)?;
    }
    Ok(())
}

/// The places of the retention pins of a class.
fn make_places(alloc: Global, groups: &[Group], class: &[u8]) -> Result<Items<u32>, Want>
    ensures { IfOk result (λ places. places ≡ places_of class.now groups.now) }
{
    let mut places = Items::new(alloc);
    for group in groups {
        if is_pin(group) {
            let attrs = group.attrs.as_slice();
            add_names_places(&mut places, group.args.as_slice(), attrs, class)?;
        }
    }
    Ok(places)
}

/// Adds the retention pins of a class behind the first.
pub(crate) fn add_second_retentions(
    alloc: Global,
    faults: &mut Items<Found>,
    groups: &[Group],
    class: &[u8],
) -> Result<(), Want>
    ensures { OnOk result (faults.new ≡ faults.old ++ repeated (codes "retention_pin") (places_of class.now groups.now)) }
{
    let places = make_places(alloc, groups, class)?;
    add_repeated(alloc, faults, b"retention_pin", places.as_slice())?;
    Ok(())
}
