//! The words that attributes of a cell may say, and the power and ground pins of a cell.

ghost use Rattle.std.specs.Prelude.{◌≡◌, ◌++◌, OnOk, IfOk};
ghost use Rattle.std.specs.Option.{option_copied};
ghost use Rattle.pe_cells.specs.Kinds.{is_well_word as is_well_word_of, kind_of as kind_of_word, kind_in as kind_in_group, is_internal as is_internal_kind, is_well as is_well_kind, pgs_in, pgs_of, is_pg_pin as is_pg_pin_group, is_pin as is_pin_group, is_ff as is_ff_group, pg_named as pg_named_in, is_open as is_open_in};

use crate::cell::{Pg, PgKind};
use crate::looking::{is_kind, same, text};
use pe_base::Want;
use pe_liberty_read::Group;
use sqlite_items::Items;
use std::alloc::Global;

/// Whether it is the type of a well.
fn is_well_word(word: &[u8]) -> bool
    ensures { result ≡ is_well_word_of word.now }
{
    same(word, b"nwell")
        || same(word, b"pwell")
        || same(word, b"deepnwell")
        || same(word, b"deeppwell")
}

/// What a word of `pg_type` means.
pub(crate) fn kind_of(word: &[u8]) -> Option<PgKind>
    ensures { result ≡ kind_of_word word.now }
{
    if same(word, b"primary_power") {
        return Some(PgKind::PrimaryPower);
    }
    if same(word, b"primary_ground") {
        return Some(PgKind::PrimaryGround);
    }
    if same(word, b"backup_power") {
        return Some(PgKind::BackupPower);
    }
    if same(word, b"backup_ground") {
        return Some(PgKind::BackupGround);
    }
    if same(word, b"internal_power") {
        return Some(PgKind::InternalPower);
    }
    if same(word, b"internal_ground") {
        return Some(PgKind::InternalGround);
    }
    if is_well_word(word) {
        Some(PgKind::Well)
    } else {
        None
    }
}

/// What the pins of a group are for. A type that is none stands for primary power, until it is refused.
pub(crate) fn kind_in(group: &Group) -> PgKind
    ensures { result ≡ kind_in_group group.now }
{
    match kind_of(text(group, b"pg_type")) {
        Some(kind) => kind,
        None => PgKind::PrimaryPower,
    }
}

pub(crate) fn is_internal(kind: PgKind) -> bool
    ensures { result ≡ is_internal_kind kind }
{
    matches!(kind, PgKind::InternalPower | PgKind::InternalGround)
}

pub(crate) fn is_well(kind: PgKind) -> bool
    ensures { result ≡ is_well_kind kind }
{
    matches!(kind, PgKind::Well)
}

pub(crate) fn is_pg_pin(group: &Group) -> bool
    ensures { result ≡ is_pg_pin_group group.now }
{
    is_kind(group, b"pg_pin")
}

pub(crate) fn is_pin(group: &Group) -> bool
    ensures { result ≡ is_pin_group group.now }
{
    is_kind(group, b"pin")
}

pub(crate) fn is_ff(group: &Group) -> bool
    ensures { result ≡ is_ff_group group.now }
{
    is_kind(group, b"ff")
}

/// Adds the pins of a group.
fn add_pgs(alloc: Global, pgs: &mut Items<Pg>, group: &Group) -> Result<(), Want>
    ensures { OnOk result (pgs.new ≡ pgs.old ++ pgs_in group.now) }
{
    let kind = kind_in(group);
    for name in group.args.as_slice() {
        let name = name.copy(alloc)?;
        pgs.push(Pg { name, kind })?;
    }
    Ok(())
}

/// The power and ground pins of a cell, in the order of the text.
pub(crate) fn make_pgs(alloc: Global, groups: &[Group]) -> Result<Items<Pg>, Want>
    ensures { IfOk result (λ pgs. pgs ≡ pgs_of groups.now) }
{
    let mut pgs = Items::new(alloc);
    for group in groups {
        if is_pg_pin(group) {
            add_pgs(alloc, &mut pgs, group)?;
        }
    }
    Ok(pgs)
}

/// The first power or ground pin of the name.
fn pg_named<'a>(pgs: &'a [Pg], name: &[u8]) -> Option<&'a Pg>
    ensures { option_copied result ≡ pg_named_in pgs.now name.now }
{
    pgs.iter().find(|pg| pg.name.is(name))
}

/// Whether a power or ground pin has the name, and the first one is no well.
#[tactic(auto, unfolding(crate::specs::Kinds::is_open))]
pub(crate) fn is_open(pgs: &[Pg], name: &[u8]) -> bool
    ensures { result ≡ is_open_in pgs.now name.now }
{
    match pg_named(pgs, name) {
        Some(pg) => !is_well(pg.kind),
        None => false,
    }
}
