//! Whether a cell is plain.

ghost use Rattle.std.specs.Prelude.{◌≡◌, ◌&&◌, IfOk, slice_get};
ghost use Rattle.std.specs.List.{list_all};
ghost use Rattle.pe_instances.specs.Wired.{is_output_pin, reads_inputs as reads_inputs_alone, read_inputs_alone as read_inputs_of, pin_names as pin_names_of, is_plain_cell as is_plain_view};

use pe_base::{Name, Want, are_distinct};
use pe_bool_expr::Expr;
use pe_cells::{CellView, Signal};
use sqlite_items::Items;
use std::alloc::Global;

/// Whether the number is that of an output pin.
fn is_output_pin(signals: &[Signal], pin: u32) -> bool
    ensures { result ≡ is_output_pin (slice_get signals.now pin) }
{
    match signals.get(pin as usize) {
        Some(signal) => signal.output,
        None => false,
    }
}

/// Whether a function names no output pin.
#[tactic(auto, using(crate::proofs::Reading::reading))]
fn reads_inputs(signals: &[Signal], e: &Expr) -> bool
    ensures { result ≡ reads_inputs_alone signals.now e.now }
{
    match e {
        Expr::Const(_) => true,
        Expr::Pin(pin) => !is_output_pin(signals, *pin),
        Expr::Not(inner) => reads_inputs(signals, inner.get()),
        Expr::And(first, second) => {
            reads_inputs(signals, first.get()) && reads_inputs(signals, second.get())
        }
        Expr::Or(first, second) => {
            reads_inputs(signals, first.get()) && reads_inputs(signals, second.get())
        }
        Expr::Xor(first, second) => {
            reads_inputs(signals, first.get()) && reads_inputs(signals, second.get())
        }
    }
}

/// Whether a function, if there is one, names no output pin.
fn read_inputs_alone(signals: &[Signal], function: &Option<Expr>) -> bool
    ensures { result ≡ read_inputs_of signals.now function.now }
{
    match function {
        Some(e) => reads_inputs(signals, e),
        None => true,
    }
}

/// Whether the functions of the pins name no output pin.
fn are_read_inputs(signals: &[Signal]) -> bool
    ensures { result ≡ list_all (λ s. read_inputs_of signals.now s.function && read_inputs_of signals.now s.down) signals.now }
{
    signals.iter().all(|s| read_inputs_alone(signals, &s.function)
        && read_inputs_alone(signals, &s.down))
}

/// The names of the pins: the signal pins, then the power and ground pins.
fn pin_names(alloc: Global, view: &CellView) -> Result<Items<Name>, Want>
    ensures { IfOk result (λ names. names ≡ pin_names_of view.now) }
{
    let mut names = Items::new(alloc);
    for signal in view.signals.as_slice() {
        let name = signal.name.copy(alloc)?;
        names.push(name)?;
    }
    for pg in view.pgs.as_slice() {
        let name = pg.name.copy(alloc)?;
        names.push(name)?;
    }
    Ok(names)
}

/// Whether a cell has no register and no switch, its pins have different names, and its functions name no output.
pub(crate) fn is_plain_cell(alloc: Global, view: &CellView) -> Result<bool, Want>
    ensures { IfOk result (λ b. b ≡ is_plain_view view.now) }
{
    if view.register.is_some() || view.retention.is_some() || !view.switches.is_empty() {
        return Ok(false);
    }
    let names = pin_names(alloc, view)?;
    if !are_distinct(alloc, names.as_slice())? {
        return Ok(false);
    }
    Ok(are_read_inputs(view.signals.as_slice()))
}
