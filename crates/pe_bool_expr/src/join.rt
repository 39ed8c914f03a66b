//! Balanced trees of many operands.

ghost use Rattle.std.specs.Prelude.{◌≡◌, ◌<◌, ◌≤◌, ◌-◌, length, take, drop, IfOk, OnOk};
ghost use Rattle.pe_bool_expr.specs.Meaning.{joined, balanced};

use crate::expr::Expr;
use crate::style::Operator;
use sqlite_items::{Boxed, Items};
use std::alloc::{AllocError, Global};

/// Two operands joined.
fn pair(alloc: Global, operator: Operator, first: Expr, second: Expr) -> Result<Expr, AllocError>
    ensures { IfOk result (λ e. e ≡ joined operator first second) }
{
    let first = Boxed::new(alloc, first)?;
    let second = Boxed::new(alloc, second)?;
    Ok(match operator {
        Operator::And => Expr::And(first, second),
        Operator::Or => Expr::Or(first, second),
        Operator::Xor => Expr::Xor(first, second),
    })
}

/// Takes the last `count` operands from the list, and makes a balanced tree of them. It goes as deep as the logarithm of
/// their number.
fn join_last(
    alloc: Global,
    operator: Operator,
    operands: &mut Items<Expr>,
    count: usize,
) -> Result<Expr, AllocError>
    requires some { 0 < count }
    requires enough { count ≤ length operands.old }
    ensures kept { OnOk result (operands.new ≡ take (length operands.old - count) operands.old) }
    ensures tree { IfOk result (λ e. e ≡ balanced operator (drop (length operands.old - count) operands.old)) }
{
    if count == 1 {
        return Ok(operands.pop().unwrap());
    }
    let half = count / 2;
    let second = join_last(alloc, operator, operands, count - half)?;
    let first = join_last(alloc, operator, operands, half)?;
    let whole = pair(alloc, operator, first, second)?;
    Ok(whole)
}

/// A balanced tree of the operands.
pub(crate) fn join(
    alloc: Global,
    operator: Operator,
    operands: Items<Expr>,
) -> Result<Expr, AllocError>
    requires { 0 < length operands }
    ensures { IfOk result (λ e. e ≡ balanced operator operands) }
{
    let mut left = operands;
    let count = left.len();
    join_last(alloc, operator, &mut left, count)
}
