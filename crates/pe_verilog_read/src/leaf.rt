//! Terminals in derivations.

ghost use Rattle.std.specs.Prelude.{◌≡◌};
ghost use Rattle.pe_grammar.specs.Derivation.{derivation};
ghost use Rattle.pe_verilog_read.specs.Leaves.{token_of, sign_of, operator_of};

use crate::verilog_table::{
    AND, AND_AND, BANG, BAR, CARET, EQUAL, GREATER, GREATER_EQUAL, LEFT, LESS, LESS_EQUAL, MINUS,
    NAND, NOR, NOT_EQUAL, PLUS, RIGHT, TILDE, XNOR,
};
use pe_grammar::{Token, Tree};
use pe_verilog_ast::{BinOp, UnOp};

/// What stands for the token of what is no terminal.
fn no_token() -> Token
    ensures { result ≡ record { kind = 0; place = 0 } }
{
    Token { kind: 0, place: 0 }
}

/// The token of a terminal, which may be one of several.
#[tactic(auto, using(pe_grammar::proofs::Trees::layers))]
pub(crate) fn leaf(tree: &Tree) -> Token
    ensures { result ≡ token_of (derivation tree.now) }
{
    match tree {
        Tree::Leaf(token) => *token,
        Tree::Left(inner) => leaf(inner.get()),
        Tree::Right(inner) => leaf(inner.get()),
        Tree::Empty => no_token(),
        Tree::Pair(_) => no_token(),
        Tree::Repeat(_) => no_token(),
        Tree::Present(_) => no_token(),
        Tree::Absent(_) => no_token(),
        Tree::Once(_) => no_token(),
    }
}

/// The operator before an operand.
pub(crate) fn sign(kind: u16) -> UnOp
    ensures { result ≡ sign_of kind }
{
    match kind {
        BANG => UnOp::LogicNot,
        TILDE => UnOp::Not,
        AND => UnOp::And,
        NAND => UnOp::Nand,
        BAR => UnOp::Or,
        NOR => UnOp::Nor,
        CARET => UnOp::Xor,
        _ => UnOp::Xnor,
    }
}

/// The operator between two operands.
pub(crate) fn operator(kind: u16) -> BinOp
    ensures { result ≡ operator_of kind }
{
    match kind {
        PLUS => BinOp::Add,
        MINUS => BinOp::Sub,
        LEFT => BinOp::ShiftLeft,
        RIGHT => BinOp::ShiftRight,
        LESS => BinOp::Less,
        LESS_EQUAL => BinOp::LessEqual,
        GREATER => BinOp::Greater,
        GREATER_EQUAL => BinOp::GreaterEqual,
        EQUAL => BinOp::Equal,
        NOT_EQUAL => BinOp::NotEqual,
        AND => BinOp::And,
        CARET => BinOp::Xor,
        XNOR => BinOp::Xnor,
        BAR => BinOp::Or,
        AND_AND => BinOp::LogicAnd,
        _ => BinOp::LogicOr,
    }
}
