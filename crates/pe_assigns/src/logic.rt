//! Expressions of whole nets.

ghost use Rattle.std.specs.Prelude.{◌≡◌, map};
ghost use Rattle.pe_nets.specs.Nets.{value_in};
ghost use Rattle.pe_assigns.specs.Logic.{logic_of, step_of, is_whole, is_read, is_join, are_read, value_of, joined_value, chained_value};

use pe_base::{NameSet, Val, and, not, or};
use pe_nets::NameIndex;
use pe_verilog_ast::{BinOp, Ex, Operand, Select, UnOp};

/// Whether the whole net is meant, and no bits of it.
#[tactic(auto, using(crate::proofs::Layers::layers))]
pub fn is_whole(select: &Select) -> bool
    ensures { result ≡ is_whole select.now }
{
    match select {
        Select::Whole => true,
        Select::Bit(_) => false,
        Select::Part(_, _) => false,
    }
}

fn is_join(op: BinOp) -> bool
    ensures { result ≡ is_join op }
{
    matches!(op, BinOp::And | BinOp::Or)
}

// Whether right operands are of known nets.
#[tactic(auto, using(crate::proofs::Layers::layers, crate::proofs::Chains::chain_read))]
#[cycle(reading)]
fn are_read(more: &[Operand], known: &NameSet) -> bool
    ensures { result ≡ are_read known.now (map step_of more.now) }
{
    for operand in more {
        if !is_join(operand.op) {
            return false;
        }
        if !is_read(&operand.value, known) {
            return false;
        }
    }
    true
}

/// Whether an expression is of known nets, by `~`, `&` and `|` alone.
#[tactic(auto, using(crate::proofs::Layers::layers, crate::proofs::Chains::chain_read))]
#[cycle(reading)]
pub(crate) fn is_read(e: &Ex, known: &NameSet) -> bool
    ensures { result ≡ is_read known.now (logic_of e.now) }
{
    match e {
        Ex::Number { .. } => false,
        Ex::Net { name, select } => is_whole(select) && known.contains(name.bytes()),
        Ex::Join(_) => false,
        Ex::Repeat { .. } => false,
        Ex::Unary(op, a) => match op {
            UnOp::Not => is_read(a.get(), known),
            _ => false,
        },
        Ex::Chain { first, more } => {
            is_read(first.get(), known) && are_read(more.as_slice(), known)
        }
        Ex::Choose(_, _, _) => false,
    }
}

// The value that an operator gives.
fn joined_value(op: BinOp, a: Val, b: Val) -> Val
    ensures { result ≡ joined_value op a b }
{
    match op {
        BinOp::And => and(a, b),
        BinOp::Or => or(a, b),
        _ => Val::Corrupt,
    }
}

// The value of a net.
fn net_value(name: &[u8], nets: &NameIndex, values: &[Val]) -> Val
    ensures { result ≡ value_in nets.now values.now name.now }
{
    match values.get(nets.place(name)) {
        Some(value) => *value,
        None => Val::Corrupt,
    }
}

// The value of operands that are grouped to the left.
#[tactic(auto, using(crate::proofs::Layers::layers, crate::proofs::Chains::chain_value))]
#[cycle(values)]
fn chained_value(first: Val, more: &[Operand], nets: &NameIndex, values: &[Val]) -> Val
    ensures { result ≡ chained_value (value_in nets.now values.now) first (map step_of more.now) }
{
    let mut all = first;
    for operand in more {
        all = joined_value(operand.op, all, value(&operand.value, nets, values));
    }
    all
}

/// The value of an expression, where the nets have these values. Of another form than `is_read` takes it is corrupt.
#[tactic(auto, using(crate::proofs::Layers::layers, crate::proofs::Chains::chain_value))]
#[cycle(values)]
pub(crate) fn value(e: &Ex, nets: &NameIndex, values: &[Val]) -> Val
    ensures { result ≡ value_of (value_in nets.now values.now) (logic_of e.now) }
{
    match e {
        Ex::Number { .. } => Val::Corrupt,
        Ex::Net { name, select } => {
            if is_whole(select) {
                net_value(name.bytes(), nets, values)
            } else {
                Val::Corrupt
            }
        }
        Ex::Join(_) => Val::Corrupt,
        Ex::Repeat { .. } => Val::Corrupt,
        Ex::Unary(op, a) => match op {
            UnOp::Not => not(value(a.get(), nets, values)),
            _ => Val::Corrupt,
        },
        Ex::Chain { first, more } => {
            chained_value(
                value(first.get(), nets, values),
                more.as_slice(),
                nets,
                values,
            )
        }
        Ex::Choose(_, _, _) => Val::Corrupt,
    }
}
