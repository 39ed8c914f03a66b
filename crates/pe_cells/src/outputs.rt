//! The outputs of a cell.

ghost use Rattle.std.specs.Prelude.{◌≡◌, ◌≤◌, IfOk, IfSome, length};
ghost use Rattle.pe_bool_expr.specs.Functions.{pins_of, different};
ghost use Rattle.pe_cells.specs.Output.{pg_values_of, pin_values_of, value_of, is_on_of, are_related_on, is_up_of, output_of};

use crate::cell::{Pg, Signal};
use crate::power::{is_powered, pg_value};
use pe_base::{Val, Want, kept};
use pe_bool_expr::{Expr, eval3};
use std::alloc::{AllocError, Global};

/// The values of all pins that a function may name, by their numbers: the signal pins, what the power and ground pins read as,
/// IQ and IQN.
pub fn pin_values(
    alloc: Global,
    signals: &[Val],
    pgs: &[Pg],
    ons: &[bool],
    iq: Val,
    iqn: Val,
) -> Result<Vec<Val>, Want>
    ensures { IfOk result (λ v. v.items ≡ pin_values_of signals.now pgs.now ons.now iq iqn) }
{
    let mut values = Vec::from_slice(alloc, signals)?;
    let reads = pg_values(alloc, pgs, ons)?;
    values.extend_from_slice(reads.as_slice())?;
    values.push(iq)?;
    values.push(iqn)?;
    Ok(values)
}

/// What the power and ground pins read as.
fn pg_values(alloc: Global, pgs: &[Pg], ons: &[bool]) -> Result<Vec<Val>, AllocError>
    ensures { IfOk result (λ v. v.items ≡ pg_values_of pgs.now ons.now) }
{
    pgs.iter()
        .zip(ons)
        .map(|(pg, on)| pg_value(pg.kind, *on))
        .collect(alloc)
}

/// The value of a function over the values of the pins, and corrupt without one.
pub fn value(function: &Option<Expr>, values: &[Val]) -> Val
    requires few { IfSome function.now (λ e. length (different (pins_of e)) ≤ 10) }
    ensures { result ≡ value_of function.now values.now }
{
    match function {
        Some(e) => eval3(e, values),
        None => Val::Corrupt,
    }
}

/// Whether a related pin, if there is one, is on.
fn is_on(ons: &[bool], pin: Option<u32>) -> bool
    ensures { result ≡ is_on_of ons.now pin }
{
    match pin {
        Some(place) => matches!(ons.get(place as usize), Some(true)),
        None => true,
    }
}

/// Whether the related pins are on, and where there is none, all primary pins.
fn are_related_on(pgs: &[Pg], ons: &[bool], power: Option<u32>, ground: Option<u32>) -> bool
    ensures { result ≡ are_related_on pgs.now ons.now power ground }
{
    match (power, ground) {
        (None, None) => is_powered(pgs, ons),
        _ => is_on(ons, power) && is_on(ons, ground),
    }
}

/// Whether an output has power: its power-down function is a known 0, and without one its related pins are on.
fn is_up(pin: &Signal, pgs: &[Pg], values: &[Val], ons: &[bool]) -> bool
    requires few { IfSome pin.now.down (λ e. length (different (pins_of e)) ≤ 10) }
    ensures { result ≡ is_up_of pin.now pgs.now values.now ons.now pin.now.down }
{
    match &pin.down {
        Some(down) => matches!(eval3(down, values), Val::Zero),
        None => are_related_on(pgs, ons, pin.power, pin.ground),
    }
}

/// The value of an output, from the values of the pins, as `pin_values` gives them, and from the states of the power and
/// ground pins: its function, and corrupt where it has no power.
pub fn output(pin: &Signal, pgs: &[Pg], values: &[Val], ons: &[bool]) -> Val
    requires few { IfSome pin.now.function (λ e. length (different (pins_of e)) ≤ 10) }
    requires few_down { IfSome pin.now.down (λ e. length (different (pins_of e)) ≤ 10) }
    ensures { result ≡ output_of pin.now pgs.now values.now ons.now }
{
    kept(is_up(pin, pgs, values, ons), value(&pin.function, values))
}
