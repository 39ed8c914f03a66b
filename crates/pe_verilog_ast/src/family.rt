//! Operators that have one rule of sizes.

ghost use Rattle.std.specs.Prelude.{◌≡◌};
ghost use Rattle.pe_verilog_ast.specs.Sizes.{family_of};

use crate::operator::BinOp;

/// Binary operators with one rule of sizes and of weight.
#[derive(Clone, Copy, Debug, PartialEq, Eq)]
pub enum Family {
    /// `+` and `-`
    Sum,
    /// `&`, `^`, `~^` and `|`
    Bitwise,
    /// `<<` and `>>`
    Shift,
    /// `<`, `<=`, `>` and `>=`
    Order,
    /// `==` and `!=`
    Equality,
    /// `&&` and `||`
    Logic,
}

/// The family of an operator.
pub fn binary_family(op: BinOp) -> Family
    ensures { result ≡ family_of op }
{
    match op {
        BinOp::Add | BinOp::Sub => Family::Sum,
        BinOp::And | BinOp::Xor | BinOp::Xnor | BinOp::Or => Family::Bitwise,
        BinOp::ShiftLeft | BinOp::ShiftRight => Family::Shift,
        BinOp::Less | BinOp::LessEqual | BinOp::Greater | BinOp::GreaterEqual => Family::Order,
        BinOp::Equal | BinOp::NotEqual => Family::Equality,
        BinOp::LogicAnd | BinOp::LogicOr => Family::Logic,
    }
}
