//! The different pins of a function.

ghost use Rattle.std.specs.Prelude.{◌≡◌, OnOk};
ghost use Rattle.pe_bool_expr.specs.Functions.{formula, pins as pins_in, with_new};

use crate::evaluate::is_among;
use crate::expr::Expr;
use sqlite_items::Items;
use std::alloc::AllocError;

/// Adds to the list those pins of the function that are not in it.
#[tactic(auto, using(crate::proofs::Formulas::layers))]
pub(crate) fn add_pins(e: &Expr, pins: &mut Items<u32>) -> Result<(), AllocError>
    ensures { OnOk result (pins.new ≡ with_new pins.old (pins_in (formula e.now))) }
{
    match e {
        Expr::Const(_) => Ok(()),
        Expr::Pin(pin) => {
            if !is_among(pins.as_slice(), *pin) {
                pins.push(*pin)?;
            }
            Ok(())
        }
        Expr::Not(inner) => add_pins(inner.get(), pins),
        Expr::And(first, second) | Expr::Or(first, second) | Expr::Xor(first, second) => {
            add_pins(first.get(), pins)?;
            add_pins(second.get(), pins)?;
            Ok(())
        }
    }
}
