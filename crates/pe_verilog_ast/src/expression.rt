//! Expressions.

use crate::number::Digit;
use crate::operator::{BinOp, UnOp};
use pe_base::Name;
use sqlite_items::{Boxed, Items};

/// An expression.
///
/// A tree is nested no deeper than its text: operands of one level of precedence stand side by side in a `Chain`, however
/// many they are.
#[derive(Drop)]
#[cycle(expressions)]
pub enum Ex {
    /// A number: one digit for each bit of its size, the lowest first.
    Number {
        digits: Items<Digit>,
    },
    /// A net or a parameter, or bits of it.
    Net {
        name: Name,
        select: Select,
    },
    /// `{FIRST, SECOND, ..}`: one or more parts in the order of the text, the highest first.
    Join(Items<Ex>),
    /// `{COUNT{FIRST, ..}}`: the one or more parts, so many times.
    Repeat {
        count: Boxed<Ex>,
        parts: Items<Ex>,
    },
    Unary(UnOp, Boxed<Ex>),
    /// `FIRST + A - B ..`: operands of one level of precedence, grouped to the left: `((FIRST + A) - B) ..`. There is always
    /// more than the first.
    Chain {
        first: Boxed<Ex>,
        more: Items<Operand>,
    },
    /// `CONDITION ? YES : NO`
    Choose(Boxed<Ex>, Boxed<Ex>, Boxed<Ex>),
}

/// An operator and the operand behind it.
#[derive(Drop)]
#[cycle(expressions)]
pub struct Operand {
    pub op: BinOp,
    pub value: Ex,
}

/// Which bits of a net are meant.
#[derive(Drop)]
#[cycle(expressions)]
pub enum Select {
    Whole,
    /// `[INDEX]`
    Bit(Boxed<Ex>),
    /// `[LEFT:RIGHT]`
    Part(Boxed<Ex>, Boxed<Ex>),
}
