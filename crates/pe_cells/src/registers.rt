//! The register of a cell, and what it keeps.

ghost use Rattle.std.specs.Prelude.{◌≡◌, true, [], Some, None, OnOk, IfOk};
ghost use Rattle.std.specs.List.{list_all};
ghost use Rattle.pe_cells.specs.Form.{first_ff as first_ff_in};
ghost use Rattle.pe_cells.specs.Functions.{is_short_group, Judges};
ghost use Rattle.pe_cells.specs.Viewing.{clear_preset as clear_preset_of, IsRegisterOf, register_uses, register_with};

use crate::cell::CellRegister;
use crate::form::{Found, first_ff};
use crate::functions::{read, read_if};
use crate::looking::{has_attr, same, text};
use pe_base::{Name, Val, Want};
use pe_bool_expr::Expr;
use pe_liberty_read::Group;
use sqlite_items::Items;
use std::alloc::Global;

/// What a word says that clear and preset give together.
fn clear_preset(word: &[u8]) -> Val
    ensures { result ≡ clear_preset_of word.now }
{
    if same(word, b"L") {
        Val::Zero
    } else if same(word, b"H") {
        Val::One
    } else {
        Val::Corrupt
    }
}

/// The register of a group, if its functions are right. `pins` are the names of the pins, and `names` those and the names of
/// the register's values.
fn make_register_of(
    alloc: Global,
    names: &[Name],
    pins: &[Name],
    faults: &mut Items<Found>,
    ff: &Group,
) -> Result<Option<CellRegister>, Want>
    requires { is_short_group ff.now ≡ true }
    ensures judged { OnOk result (Judges (register_uses names.now pins.now (Some ff.now)) faults.old faults.new) }
    ensures register { IfOk result (λ r. faults.new ≡ [] → IsRegisterOf names.now pins.now (Some ff.now) r) }
{
    let has_clear = has_attr(ff, b"clear");
    let has_preset = has_attr(ff, b"preset");
    let next = read(alloc, names, faults, ff, b"next_state")?;
    let clock = read(alloc, names, faults, ff, b"clocked_on")?;
    let clear = read_if(alloc, pins, faults, ff, b"clear", has_clear)?;
    let preset = read_if(alloc, pins, faults, ff, b"preset", has_preset)?;
    let iq = clear_preset(text(ff, b"clear_preset_var1"));
    let iqn = clear_preset(text(ff, b"clear_preset_var2"));
    Ok(joined(next, clock, clear, preset, (iq, iqn)))
}

/// The register of these functions, if next state and clock are there.
fn joined(
    next: Option<Expr>,
    clock: Option<Expr>,
    clear: Option<Expr>,
    preset: Option<Expr>,
    both: (Val, Val),
) -> Option<CellRegister>
    ensures { result ≡ register_with next clock clear preset both }
{
    match (next, clock) {
        (Some(next), Some(clock)) => Some(CellRegister {
            next,
            clock,
            clear,
            preset,
            both,
        }),
        _ => None,
    }
}

/// The register of a cell, if it has one and its functions are right. What is wrong in them is added to the faults.
pub(crate) fn make_register(
    alloc: Global,
    names: &[Name],
    pins: &[Name],
    faults: &mut Items<Found>,
    groups: &[Group],
) -> Result<Option<CellRegister>, Want>
    requires { list_all is_short_group groups.now ≡ true }
    ensures judged { OnOk result (Judges (register_uses names.now pins.now (first_ff_in groups.now)) faults.old faults.new) }
    ensures register { IfOk result (λ r. faults.new ≡ [] → IsRegisterOf names.now pins.now (first_ff_in groups.now) r) }
{
    match first_ff(groups) {
        Some(ff) => {
            let register = make_register_of(alloc, names, pins, faults, ff)?;
            Ok(register)
        }
        None => Ok(None),
    }
}
