//! Operators bit by bit, reductions, equality, logic and choice.

ghost use Rattle.std.specs.Prelude.{◌≡◌, ◌∷◌, [], IfOk, length};
ghost use Rattle.pe_base.specs.Words.{all_of, any_of, parity_of, not_bits, and_bits, or_bits, xor_bits, xnor_bits};
ghost use Rattle.pe_base.specs.Words.{reduce_and_of, reduce_nand_of, reduce_or_of, reduce_nor_of, reduce_xor_of, reduce_xnor_of};
ghost use Rattle.pe_base.specs.Words.{equal_of, not_equal_of, logic_not_of, logic_and_of, logic_or_of, choose_of};
ghost use Rattle.pe_base.specs.Words.{each_pair};
ghost use Rattle.pe_base.specs.Gates.{gate_of};

use crate::text::Want;
use crate::value::{self, Val};
use sqlite_items::Items;
use std::alloc::{AllocError, Global};

/// `~a`
pub fn not(alloc: Global, a: &[Val]) -> Result<Items<Val>, Want>
    ensures { IfOk result (λ r. r ≡ not_bits a.now) }
{
    let bits = complements(alloc, a)?;
    Ok(Items::from_vec(bits))
}

/// `a & b`
pub fn and(alloc: Global, a: &[Val], b: &[Val]) -> Result<Items<Val>, Want>
    requires { length a.now ≡ length b.now }
    ensures { IfOk result (λ r. r ≡ and_bits a.now b.now) }
{
    each_pair(alloc, Gate::And, a, b)
}

/// `a | b`
pub fn or(alloc: Global, a: &[Val], b: &[Val]) -> Result<Items<Val>, Want>
    requires { length a.now ≡ length b.now }
    ensures { IfOk result (λ r. r ≡ or_bits a.now b.now) }
{
    each_pair(alloc, Gate::Or, a, b)
}

/// `a ^ b`
pub fn xor(alloc: Global, a: &[Val], b: &[Val]) -> Result<Items<Val>, Want>
    requires { length a.now ≡ length b.now }
    ensures { IfOk result (λ r. r ≡ xor_bits a.now b.now) }
{
    each_pair(alloc, Gate::Xor, a, b)
}

/// `a ~^ b`
pub fn xnor(alloc: Global, a: &[Val], b: &[Val]) -> Result<Items<Val>, Want>
    requires { length a.now ≡ length b.now }
    ensures { IfOk result (λ r. r ≡ xnor_bits a.now b.now) }
{
    each_pair(alloc, Gate::Xnor, a, b)
}

/// `&a`, of one bit.
pub fn reduce_and(alloc: Global, a: &[Val]) -> Result<Items<Val>, Want>
    ensures { IfOk result (λ r. r ≡ reduce_and_of a.now) }
{
    one_bit(alloc, all_of(a))
}

/// `~&a`, of one bit.
pub fn reduce_nand(alloc: Global, a: &[Val]) -> Result<Items<Val>, Want>
    ensures { IfOk result (λ r. r ≡ reduce_nand_of a.now) }
{
    one_bit(alloc, value::not(all_of(a)))
}

/// `|a`, of one bit.
pub fn reduce_or(alloc: Global, a: &[Val]) -> Result<Items<Val>, Want>
    ensures { IfOk result (λ r. r ≡ reduce_or_of a.now) }
{
    one_bit(alloc, any_of(a))
}

/// `~|a`, of one bit.
pub fn reduce_nor(alloc: Global, a: &[Val]) -> Result<Items<Val>, Want>
    ensures { IfOk result (λ r. r ≡ reduce_nor_of a.now) }
{
    one_bit(alloc, value::not(any_of(a)))
}

/// `^a`, of one bit.
pub fn reduce_xor(alloc: Global, a: &[Val]) -> Result<Items<Val>, Want>
    ensures { IfOk result (λ r. r ≡ reduce_xor_of a.now) }
{
    one_bit(alloc, parity_of(a))
}

/// `~^a`, of one bit.
pub fn reduce_xnor(alloc: Global, a: &[Val]) -> Result<Items<Val>, Want>
    ensures { IfOk result (λ r. r ≡ reduce_xnor_of a.now) }
{
    one_bit(alloc, value::not(parity_of(a)))
}

/// `a == b`, of one bit: 0 where two known bits differ, else corrupt where a bit is.
pub fn equal(alloc: Global, a: &[Val], b: &[Val]) -> Result<Items<Val>, Want>
    requires { length a.now ≡ length b.now }
    ensures { IfOk result (λ r. r ≡ equal_of a.now b.now) }
{
    let same = xnor(alloc, a, b)?;
    one_bit(alloc, all_of(same.as_slice()))
}

/// `a != b`, of one bit.
pub fn not_equal(alloc: Global, a: &[Val], b: &[Val]) -> Result<Items<Val>, Want>
    requires { length a.now ≡ length b.now }
    ensures { IfOk result (λ r. r ≡ not_equal_of a.now b.now) }
{
    let same = xnor(alloc, a, b)?;
    one_bit(alloc, value::not(all_of(same.as_slice())))
}

/// `!a`, of one bit.
pub fn logic_not(alloc: Global, a: &[Val]) -> Result<Items<Val>, Want>
    ensures { IfOk result (λ r. r ≡ logic_not_of a.now) }
{
    one_bit(alloc, value::not(any_of(a)))
}

/// `a && b`, of one bit.
pub fn logic_and(alloc: Global, a: &[Val], b: &[Val]) -> Result<Items<Val>, Want>
    ensures { IfOk result (λ r. r ≡ logic_and_of a.now b.now) }
{
    one_bit(alloc, value::and(any_of(a), any_of(b)))
}

/// `a || b`, of one bit.
pub fn logic_or(alloc: Global, a: &[Val], b: &[Val]) -> Result<Items<Val>, Want>
    ensures { IfOk result (λ r. r ≡ logic_or_of a.now b.now) }
{
    one_bit(alloc, value::or(any_of(a), any_of(b)))
}

/// `c ? a : b`, and the merge of both, bit by bit, where no bit of `c` is 1 and one is corrupt.
pub fn choose(alloc: Global, c: &[Val], a: &[Val], b: &[Val]) -> Result<Items<Val>, Want>
    requires { length a.now ≡ length b.now }
    ensures { IfOk result (λ r. r ≡ choose_of c.now a.now b.now) }
{
    each_pair(alloc, Gate::Pick(any_of(c)), b, a)
}

// 1 where all bits are 1, 0 where one is 0, else corrupt.
fn all_of(a: &[Val]) -> Val
    ensures { result ≡ all_of a.now }
{
    a.iter().fold(Val::One, |all, x| value::and(all, *x))
}

// 1 where a bit is 1, 0 where all are 0, else corrupt: the truth value.
fn any_of(a: &[Val]) -> Val
    ensures { result ≡ any_of a.now }
{
    a.iter().fold(Val::Zero, |any, x| value::or(any, *x))
}

// Whether an odd number of bits is 1, and corrupt where a bit is.
fn parity_of(a: &[Val]) -> Val
    ensures { result ≡ parity_of a.now }
{
    a.iter().fold(Val::Zero, |parity, x| value::xor(parity, *x))
}

pub(crate) fn one_bit(alloc: Global, bit: Val) -> Result<Items<Val>, Want>
    ensures { IfOk result (λ r. r ≡ bit ∷ []) }
{
    let bits = Items::from_slice(alloc, &[bit])?;
    Ok(bits)
}

// An operator on two bits.
#[derive(Clone, Copy)]
pub(crate) enum Gate {
    And,
    Or,
    Xor,
    Xnor,
    // the first where the value is 0, the second where it is 1, their merge where it is corrupt
    Pick(Val),
}

impl Gate {
    fn of(self, x: Val, y: Val) -> Val
        ensures { result ≡ gate_of self x y }
    {
        match self {
            Gate::And => value::and(x, y),
            Gate::Or => value::or(x, y),
            Gate::Xor => value::xor(x, y),
            Gate::Xnor => value::xnor(x, y),
            Gate::Pick(control) => value::pick(control, x, y),
        }
    }
}

fn each_pair(alloc: Global, gate: Gate, a: &[Val], b: &[Val]) -> Result<Items<Val>, Want>
    requires { length a.now ≡ length b.now }
    ensures { IfOk result (λ r. r ≡ each_pair (gate_of gate) a.now b.now) }
{
    let mut bits = Vec::new(alloc);
    for i in 0..a.len() {
        bits.push(gate.of(a[i], b[i]))?;
    }
    Ok(Items::from_vec(bits))
}

fn complements(alloc: Global, a: &[Val]) -> Result<Vec<Val>, AllocError>
    ensures { IfOk result (λ r. r.items ≡ not_bits a.now) }
{
    a.iter().map(|x| value::not(*x)).collect(alloc)
}
