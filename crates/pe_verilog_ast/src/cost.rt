//! Weights of expressions for every context at once.

ghost use Rattle.std.specs.Prelude.{◌≡◌, ◌+◌, ◌*◌, max};
ghost use Rattle.pe_verilog_ast.specs.Weights.{Sized, capped, reduced, complemented, applied, combined, chosen};
ghost use Rattle.pe_verilog_ast.specs.Sizes.{family_of};
ghost use Rattle.pe_verilog_ast.specs.Costs.{IsCost};

use crate::family::{Family, binary_family};
use crate::operator::{BinOp, UnOp};

/// The size of an expression that stands alone, and its weight: in a context of so many bits it is the fixed part, and for
/// each bit of the context so much. The greatest u64 stands for all numbers above it.
#[derive(Clone, Copy)]
pub struct Cost {
    pub size: u64,
    pub fixed: u64,
    pub per_bit: u64,
}

/// The larger of two numbers.
pub fn larger(a: u64, b: u64) -> u64
    ensures { result ≡ max a b }
{
    if a < b { b } else { a }
}

/// The weight in a context of a size.
pub fn weight_at(cost: Cost, size: u64) -> u64
    ensures { result ≡ capped (cost.fixed + capped (cost.per_bit * size)) }
{
    cost.fixed.saturating_add(cost.per_bit.saturating_mul(size))
}

/// The weight where it stands alone.
pub fn alone(cost: Cost) -> u64
    ensures { (x : Sized) → IsCost x cost → result ≡ capped (x.weight x.own) }
{
    weight_at(cost, cost.size)
}

// Both operands have the size of the context, and the operator counts so much for each bit of it.
fn in_context(factor: u64, a: Cost, b: Cost) -> Cost
    ensures size { result.size ≡ max a.size b.size }
    ensures fixed { result.fixed ≡ capped (a.fixed + b.fixed) }
    ensures per_bit { result.per_bit ≡ capped (capped (factor + a.per_bit) + b.per_bit) }
{
    Cost {
        size: larger(a.size, b.size),
        fixed: a.fixed.saturating_add(b.fixed),
        per_bit: factor.saturating_add(a.per_bit).saturating_add(b.per_bit),
    }
}

// A shift of what has the size of the context by an amount that stands alone.
fn shifted(a: Cost, b: Cost) -> Cost
    ensures size { result.size ≡ a.size }
    ensures fixed { (y : Sized) → IsCost y b → result.fixed ≡ capped (a.fixed + capped (y.weight y.own)) }
    ensures per_bit { result.per_bit ≡ capped (12 + a.per_bit) }
{
    Cost {
        size: a.size,
        fixed: a.fixed.saturating_add(alone(b)),
        per_bit: 12u64.saturating_add(a.per_bit),
    }
}

/// One bit from operands that weigh so much in any context.
pub fn one_bit(node: u64, left: u64, right: u64) -> Cost
    ensures size { result.size ≡ 1 }
    ensures fixed { result.fixed ≡ capped (capped (node + left) + right) }
    ensures per_bit { result.per_bit ≡ 0 }
{
    Cost {
        size: 1,
        fixed: node.saturating_add(left).saturating_add(right),
        per_bit: 0,
    }
}

/// A binary operator and its operands.
pub fn binary(op: BinOp, a: Cost, b: Cost) -> Cost
    ensures { (x y : Sized) → IsCost x a → IsCost y b → IsCost (combined (family_of op) x y) result }
{
    let size = larger(a.size, b.size);
    match binary_family(op) {
        Family::Sum => in_context(8, a, b),
        Family::Bitwise => in_context(1, a, b),
        Family::Shift => shifted(a, b),
        Family::Order => {
            let node = 8u64.saturating_mul(size);
            one_bit(node, weight_at(a, size), weight_at(b, size))
        }
        Family::Equality => one_bit(1, weight_at(a, size), weight_at(b, size)),
        Family::Logic => one_bit(1, alone(a), alone(b)),
    }
}

fn complement(a: Cost) -> Cost
    ensures { (x : Sized) → IsCost x a → IsCost (complemented x) result }
{
    Cost {
        size: a.size,
        fixed: a.fixed,
        per_bit: 1u64.saturating_add(a.per_bit),
    }
}

fn reduce(a: Cost) -> Cost
    ensures { (x : Sized) → IsCost x a → IsCost (reduced x) result }
{
    one_bit(1, alone(a), 0)
}

/// A unary operator and its operand.
pub fn unary(op: UnOp, a: Cost) -> Cost
    ensures { (x : Sized) → IsCost x a → IsCost (applied op x) result }
{
    match op {
        UnOp::Not => complement(a),
        UnOp::And | UnOp::Nand | UnOp::Or | UnOp::Nor | UnOp::Xor | UnOp::Xnor | UnOp::LogicNot =>
            reduce(a),
    }
}

/// `CONDITION ? A : B`
pub fn choose(condition: Cost, a: Cost, b: Cost) -> Cost
    ensures { (c x y : Sized) → IsCost c condition → IsCost x a → IsCost y b → IsCost (chosen c x y) result }
{
    let both = in_context(1, a, b);
    Cost {
        size: both.size,
        fixed: alone(condition).saturating_add(both.fixed),
        per_bit: both.per_bit,
    }
}

/// What has a size of its own, counts the size of its context, and has parts of so much weight that stand alone.
pub fn leaf(size: u64, parts: u64) -> Cost
    ensures size { result.size ≡ size }
    ensures fixed { result.fixed ≡ parts }
    ensures per_bit { result.per_bit ≡ 1 }
{
    Cost {
        size,
        fixed: parts,
        per_bit: 1,
    }
}
