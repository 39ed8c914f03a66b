//! The power of a cell: what its power and ground pins read as, and which of them have to be on.

ghost use Rattle.std.specs.Prelude.{◌≡◌, ◌≤◌, length};
ghost use Rattle.std.specs.List.{list_any};
ghost use Rattle.pe_bool_expr.specs.Functions.{pins_of, different};
ghost use Rattle.pe_cells.specs.Power.{pg_value_of, is_primary as is_primary_kind, is_primary_ground, is_backup as is_backup_kind, is_backup_ground, are_on, is_powered_of, is_retained_of, has_switch_on_of};

use crate::cell::{CellSwitch, Pg, PgKind};
use pe_base::{Val, known};
use pe_bool_expr::eval3;

/// What a power or ground pin reads as in a function: a power pin is 1 where it is on, a ground pin 0 where it is on. A well,
/// which no function names, is corrupt.
pub fn pg_value(kind: PgKind, on: bool) -> Val
    ensures { result ≡ pg_value_of kind on }
{
    match kind {
        PgKind::PrimaryPower | PgKind::BackupPower | PgKind::InternalPower => known(on),
        PgKind::PrimaryGround | PgKind::BackupGround | PgKind::InternalGround => known(!on),
        PgKind::Well => Val::Corrupt,
    }
}

fn is_primary(kind: PgKind) -> bool
    ensures { result ≡ is_primary_kind kind }
{
    matches!(kind, PgKind::PrimaryPower | PgKind::PrimaryGround)
}

fn is_backup(kind: PgKind) -> bool
    ensures { result ≡ is_backup_kind kind }
{
    matches!(kind, PgKind::BackupPower | PgKind::BackupGround)
}

/// Whether the cell has power: all primary pins are on. A cell without such pins has.
pub fn is_powered(pgs: &[Pg], ons: &[bool]) -> bool
    ensures { result ≡ is_powered_of pgs.now ons.now }
{
    pgs.iter()
        .zip(ons)
        .all(|(pg, on)| !is_primary(pg.kind) || *on)
}

/// Whether what a retention cell keeps has power: all backup pins are on, and where it has no backup ground, all primary
/// grounds are on too.
pub fn is_retained(pgs: &[Pg], ons: &[bool]) -> bool
    ensures { result ≡ is_retained_of pgs.now ons.now }
{
    has_backup(pgs, ons) && (has_backup_ground(pgs) || has_ground(pgs, ons))
}

fn has_backup(pgs: &[Pg], ons: &[bool]) -> bool
    ensures { result ≡ are_on is_backup_kind pgs.now ons.now }
{
    pgs.iter()
        .zip(ons)
        .all(|(pg, on)| !is_backup(pg.kind) || *on)
}

fn has_ground(pgs: &[Pg], ons: &[bool]) -> bool
    ensures { result ≡ are_on is_primary_ground pgs.now ons.now }
{
    pgs.iter().zip(ons).all(|(pg, on)| !matches!(pg.kind, PgKind::PrimaryGround) || *on)
}

fn has_backup_ground(pgs: &[Pg]) -> bool
    ensures { result ≡ list_any (λ pg. is_backup_ground pg.kind) pgs.now }
{
    pgs.iter().any(|pg| matches!(pg.kind, PgKind::BackupGround))
}

/// Whether what a switch drives is on: the pin that it passes on is on, and its function is a known 0. Off is also what a
/// corrupt function makes it.
pub fn has_switch_on(switch: &CellSwitch, values: &[Val], ons: &[bool]) -> bool
    requires few { length (different (pins_of switch.now.function)) ≤ 10 }
    ensures { result ≡ has_switch_on_of switch.now values.now ons.now }
{
    match ons.get(switch.input as usize) {
        Some(true) => matches!(eval3(&switch.function, values), Val::Zero),
        Some(false) | None => false,
    }
}
