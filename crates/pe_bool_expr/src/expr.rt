//! Boolean functions as trees.

use sqlite_items::Boxed;

/// A boolean function of pins. A pin is a number, counted from 0: a place in a list of names, or of values.
///
/// What goes over it, its drop too, goes into itself as deep as the tree is. `parse` makes no deep one: nesting is bounded,
/// and a chain of operands is a balanced tree.
#[derive(Debug, Drop)]
pub enum Expr {
    Const(bool),
    Pin(u32),
    Not(Boxed<Expr>),
    And(Boxed<Expr>, Boxed<Expr>),
    Or(Boxed<Expr>, Boxed<Expr>),
    Xor(Boxed<Expr>, Boxed<Expr>),
}
