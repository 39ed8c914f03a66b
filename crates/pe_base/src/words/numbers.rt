//! Arithmetic and comparison, by numbers.

ghost use Rattle.std.specs.Prelude.{◌≡◌, ◌+◌, ◌==◌, true, IfOk, length, map, nat_lt, replicate};
ghost use Rattle.pe_base.specs.declared.value.Val.TheVariants.{Corrupt};
ghost use Rattle.pe_base.specs.Values.{known_of};
ghost use Rattle.pe_base.specs.Adder.{sum_bit, carry_bit, less_bit};
ghost use Rattle.pe_base.specs.Words.{all_known, is_one, one_if, value_number, number_bits};
ghost use Rattle.pe_base.specs.Words.{add_of, subtract_of, less_of, less_equal_of, greater_of, greater_equal_of};

use crate::text::Want;
use crate::value::{self, Val};
use crate::words::bits;
use sqlite_items::Items;
use std::alloc::{AllocError, Global};

/// `a + b`, modulo the width, and corrupt in every bit where a bit of an operand is.
pub fn add(alloc: Global, a: &[Val], b: &[Val]) -> Result<Items<Val>, Want>
    requires { length a.now ≡ length b.now }
    ensures { IfOk result (λ r. r ≡ add_of a.now b.now) }
{
    if all_known(a) && all_known(b) {
        sum(alloc, a, b, false)
    } else {
        corrupt(alloc, a.len())
    }
}

/// `a - b`, modulo the width, and corrupt in every bit where a bit of an operand is.
pub fn subtract(alloc: Global, a: &[Val], b: &[Val]) -> Result<Items<Val>, Want>
    requires { length a.now ≡ length b.now }
    ensures { IfOk result (λ r. r ≡ subtract_of a.now b.now) }
{
    if all_known(a) && all_known(b) {
        let complement = bits::not(alloc, b)?;
        let difference = sum(alloc, a, complement.as_slice(), true)?;
        Ok(difference)
    } else {
        corrupt(alloc, a.len())
    }
}

/// `a < b`, of one bit, and corrupt where a bit of an operand is.
pub fn less(alloc: Global, a: &[Val], b: &[Val]) -> Result<Items<Val>, Want>
    requires { length a.now ≡ length b.now }
    ensures { IfOk result (λ r. r ≡ less_of a.now b.now) }
{
    let known = all_known(a) && all_known(b);
    bits::one_bit(
        alloc,
        if known {
            value::known(is_less(a, b))
        } else {
            Val::Corrupt
        },
    )
}

/// `a <= b`, of one bit, and corrupt where a bit of an operand is.
pub fn less_equal(alloc: Global, a: &[Val], b: &[Val]) -> Result<Items<Val>, Want>
    requires { length a.now ≡ length b.now }
    ensures { IfOk result (λ r. r ≡ less_equal_of a.now b.now) }
{
    let known = all_known(a) && all_known(b);
    bits::one_bit(
        alloc,
        if known {
            value::known(!is_less(b, a))
        } else {
            Val::Corrupt
        },
    )
}

/// `a > b`, of one bit, and corrupt where a bit of an operand is.
pub fn greater(alloc: Global, a: &[Val], b: &[Val]) -> Result<Items<Val>, Want>
    requires { length a.now ≡ length b.now }
    ensures { IfOk result (λ r. r ≡ greater_of a.now b.now) }
{
    let known = all_known(a) && all_known(b);
    bits::one_bit(
        alloc,
        if known {
            value::known(is_less(b, a))
        } else {
            Val::Corrupt
        },
    )
}

/// `a >= b`, of one bit, and corrupt where a bit of an operand is.
pub fn greater_equal(alloc: Global, a: &[Val], b: &[Val]) -> Result<Items<Val>, Want>
    requires { length a.now ≡ length b.now }
    ensures { IfOk result (λ r. r ≡ greater_equal_of a.now b.now) }
{
    let known = all_known(a) && all_known(b);
    bits::one_bit(
        alloc,
        if known {
            value::known(!is_less(a, b))
        } else {
            Val::Corrupt
        },
    )
}

/// Whether no bit is corrupt.
pub(crate) fn all_known(a: &[Val]) -> bool
    ensures { result ≡ all_known a.now }
{
    a.iter().all(|x| *x != Val::Corrupt)
}

/// This many corrupt bits.
pub(crate) fn corrupt(alloc: Global, width: usize) -> Result<Items<Val>, Want>
    ensures { IfOk result (λ r. r ≡ replicate width Corrupt) }
{
    let bits = vec![in alloc; Val::Corrupt; width]?;
    Ok(Items::from_vec(bits))
}

// The lowest bits of the sum of the known operands and a carry into the lowest bit.
fn sum(alloc: Global, a: &[Val], b: &[Val], carry_in: bool) -> Result<Items<Val>, Want>
    requires { length a.now ≡ length b.now }
    ensures { IfOk result (λ r. r ≡ number_bits (length a.now) (value_number a.now + value_number b.now + one_if carry_in)) }
{
    let mut carry = carry_in;
    let mut sums = Vec::new(alloc);
    for i in 0..a.len() {
        let (x, y) = (is_one(a[i]), is_one(b[i]));
        sums.push(sum_bit(x, y, carry))?;
        carry = carry_bit(x, y, carry);
    }
    let bits = known_bits(alloc, &sums)?;
    Ok(Items::from_vec(bits))
}

fn known_bits(alloc: Global, bits: &[bool]) -> Result<Vec<Val>, AllocError>
    ensures { IfOk result (λ r. r.items ≡ map known_of bits.now) }
{
    bits.iter().map(|bit| value::known(*bit)).collect(alloc)
}

// Whether the first number is below the second: the highest bit in which they differ says so.
fn is_less(a: &[Val], b: &[Val]) -> bool
    requires { length a.now ≡ length b.now }
    ensures { result ≡ nat_lt (value_number a.now) (value_number b.now) }
{
    let mut less = false;
    for i in 0..a.len() {
        let (x, y) = (is_one(a[i]), is_one(b[i]));
        less = less_bit(x, y, less);
    }
    less
}

fn is_one(x: Val) -> bool
    ensures { result ≡ is_one x }
{
    x == Val::One
}

fn sum_bit(x: bool, y: bool, carry: bool) -> bool
    ensures { result ≡ sum_bit x y carry }
{
    if x == y { carry } else { !carry }
}

fn carry_bit(x: bool, y: bool, carry: bool) -> bool
    ensures { result ≡ carry_bit x y carry }
{
    if x == y { x } else { carry }
}

// Whether the first is below the second, where the bits under them say `less`.
fn less_bit(x: bool, y: bool, less: bool) -> bool
    ensures { result ≡ less_bit x y less }
{
    if x == y { less } else { y }
}
