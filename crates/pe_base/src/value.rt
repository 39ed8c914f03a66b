//! Values of bits, known or corrupt, and the operators on them (IEEE 1364, bitwise operators).

ghost use Rattle.std.specs.Prelude.{◌≡◌, ◌↔◌, IsTrue, Bool, List};
ghost use Rattle.pe_base.specs.declared.value.Val.{Val};
ghost use Rattle.pe_base.specs.Values.{Refines, merge_of, pick_of, known_of, IsReplacement, merge_over, exact_extension};
ghost use Rattle.pe_base.specs.Operators.{and_of, or_of, not_of, xor_of, xnor_of};

/// The value of a bit. A bit without power, or one that depends on it, is corrupt.
#[derive(Clone, Copy, Debug, PartialEq, Eq)]
pub enum Val {
    Zero,
    One,
    Corrupt,
}

/// The value of a known bit.
pub fn known(bit: bool) -> Val
    ensures { result ≡ known_of bit }
{
    if bit { Val::One } else { Val::Zero }
}

/// Whether the netlist's value may stand for the RTL's: the RTL's is corrupt, or both are equal.
pub fn refines(net: Val, rtl: Val) -> bool
    ensures { IsTrue result ↔ Refines net rtl }
{
    rtl == Val::Corrupt || net == rtl
}

/// The common value, and corrupt where the two differ or are not known.
pub fn merge(a: Val, b: Val) -> Val
    ensures { result ≡ merge_of a b }
{
    if a == b { a } else { Val::Corrupt }
}

/// `zero` where the control is 0, `one` where it is 1, their merge where it is corrupt.
pub fn pick(control: Val, zero: Val, one: Val) -> Val
    ensures { result ≡ pick_of control zero one }
{
    match control {
        Val::Zero => zero,
        Val::One => one,
        Val::Corrupt => merge(zero, one),
    }
}

/// `a & b`
pub fn and(a: Val, b: Val) -> Val
    ensures { result ≡ and_of a b }
{
    match (a, b) {
        (Val::Zero, _) | (_, Val::Zero) => Val::Zero,
        (Val::One, Val::One) => Val::One,
        _ => Val::Corrupt,
    }
}

/// `a | b`
pub fn or(a: Val, b: Val) -> Val
    ensures { result ≡ or_of a b }
{
    match (a, b) {
        (Val::One, _) | (_, Val::One) => Val::One,
        (Val::Zero, Val::Zero) => Val::Zero,
        _ => Val::Corrupt,
    }
}

/// `~a`
pub fn not(a: Val) -> Val
    ensures { result ≡ not_of a }
{
    match a {
        Val::Zero => Val::One,
        Val::One => Val::Zero,
        Val::Corrupt => Val::Corrupt,
    }
}

/// `a ^ b`
pub fn xor(a: Val, b: Val) -> Val
    ensures { result ≡ xor_of a b }
{
    match a {
        Val::Zero => b,
        Val::One => not(b),
        Val::Corrupt => Val::Corrupt,
    }
}

/// `a ~^ b`
pub fn xnor(a: Val, b: Val) -> Val
    ensures { result ≡ xnor_of a b }
{
    not(xor(a, b))
}

/// The law of the exact extension: it is a bit exactly where every replacement of the corrupt inputs by 0 and 1 gives
/// that bit.
pub fn exact_law()
    ensures { (f : List Bool → Bool) (values : List Val) (bit : Bool) →
        (exact_extension f values ≡ known_of bit) ↔ ((r : List Bool) → IsReplacement values r → f r ≡ bit) }
{}

/// The law of the merge over replacements: it is a known bit exactly where every replacement gives that bit.
pub fn merge_law()
    ensures { (g : List Bool → Val) (values : List Val) (bit : Bool) →
        (merge_over values g ≡ known_of bit) ↔ ((r : List Bool) → IsReplacement values r → g r ≡ known_of bit) }
{}
