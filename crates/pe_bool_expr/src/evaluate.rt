//! The value of a boolean function where inputs may be corrupt.

ghost use Rattle.std.specs.Prelude.{◌≡◌, ◌≤◌, [], ◌∷◌, length, slice_get};
ghost use Rattle.std.specs.List.{filter};
ghost use Rattle.pe_base.specs.Values.{exact_extension};
ghost use Rattle.pe_bool_expr.specs.Functions.{formula, holds, pins_of, different, with_new, value_by, is_among as is_in};
ghost use Rattle.pe_bool_expr.specs.Choices.{value_under, corrupt_pins, is_corrupt, picked as picked_of};

use crate::expr::Expr;
use arrayvec::ArrayVec;
use pe_base::{Val, known};

/// The exact extension of a function to values: 0 or 1 exactly where the function gives that, whatever known bits stand in
/// the place of its corrupt inputs, and else corrupt. So `a + !a` is 1 where `a` is corrupt. A pin past the values is 0.
///
/// The function names at most 10 different pins. It is evaluated at most 1,024 times, and each time as deep as its tree.
pub fn eval3(e: &Expr, values: &[Val]) -> Val
    requires few { length (different (pins_of e.now)) ≤ 10 }
    ensures { result ≡ exact_extension (holds e.now) values.now }
{
    let mut corrupt = ArrayVec::new();
    collect(e, values, &mut corrupt);
    let first = value(e, values, corrupt.as_slice(), 0);
    for choice in 1..1 << corrupt.len() {
        if value(e, values, corrupt.as_slice(), choice) != first {
            return Val::Corrupt;
        }
    }
    known(first)
}

/// Adds to the list those corrupt pins of the function that are not in it, as long as there is room.
#[tactic(auto, using(crate::proofs::Formulas::layers))]
fn collect(e: &Expr, values: &[Val], corrupt: &mut ArrayVec<u32, 10>)
    ensures { length (with_new corrupt.old.items (corrupt_pins values.now (formula e.now))) ≤ 10 →
        corrupt.new.items ≡ with_new corrupt.old.items (corrupt_pins values.now (formula e.now)) }
{
    match e {
        Expr::Const(_) => {}
        Expr::Pin(pin) => add_corrupt(*pin, values, corrupt),
        Expr::Not(inner) => collect(inner.get(), values, corrupt),
        Expr::And(first, second) | Expr::Or(first, second) | Expr::Xor(first, second) => {
            collect(first.get(), values, corrupt);
            collect(second.get(), values, corrupt);
        }
    }
}

/// Adds a pin to the list, if its value is corrupt, it is not there and there is room.
fn add_corrupt(pin: u32, values: &[Val], corrupt: &mut ArrayVec<u32, 10>)
    ensures { length (with_new corrupt.old.items (filter (λ i. is_corrupt (slice_get values.now i)) (pin ∷ []))) ≤ 10 →
        corrupt.new.items ≡ with_new corrupt.old.items (filter (λ i. is_corrupt (slice_get values.now i)) (pin ∷ [])) }
{
    let is_new = match values.get(pin as usize) {
        Some(Val::Corrupt) => !is_among(corrupt.as_slice(), pin),
        _ => false,
    };
    if is_new && !corrupt.is_full() {
        corrupt.push(pin);
    }
}

/// Whether the pin is in the list.
pub(crate) fn is_among(pins: &[u32], pin: u32) -> bool
    ensures { result ≡ is_in pins.now pin }
{
    pins.iter().any(|other| *other == pin)
}

/// The function's value under a choice: bit k of it stands for the corrupt pin that is number k of the list.
#[tactic(auto, using(crate::proofs::Formulas::layers))]
fn value(e: &Expr, values: &[Val], corrupt: &[u32], choice: u32) -> bool
    ensures { result ≡ value_by (value_under values.now corrupt.now choice) (formula e.now) }
{
    match e {
        Expr::Const(bit) => *bit,
        Expr::Pin(pin) => pin_value(*pin, values, corrupt, choice),
        Expr::Not(inner) => !value(inner.get(), values, corrupt, choice),
        Expr::And(first, second) => {
            value(first.get(), values, corrupt, choice)
                && value(second.get(), values, corrupt, choice)
        }
        Expr::Or(first, second) => {
            value(first.get(), values, corrupt, choice)
                || value(second.get(), values, corrupt, choice)
        }
        Expr::Xor(first, second) => {
            value(first.get(), values, corrupt, choice)
                != value(second.get(), values, corrupt, choice)
        }
    }
}

/// A pin's value under a choice.
fn pin_value(pin: u32, values: &[Val], corrupt: &[u32], choice: u32) -> bool
    ensures { result ≡ value_under values.now corrupt.now choice pin }
{
    match values.get(pin as usize) {
        Some(Val::One) => true,
        Some(Val::Corrupt) => picked(corrupt, choice, pin),
        Some(Val::Zero) | None => false,
    }
}

/// The bit that a choice has for a pin.
fn picked(corrupt: &[u32], choice: u32, pin: u32) -> bool
    ensures { result ≡ picked_of corrupt.now choice pin }
{
    let mut left = choice;
    for other in corrupt {
        if *other == pin {
            return left % 2 == 1;
        }
        left /= 2;
    }
    false
}
