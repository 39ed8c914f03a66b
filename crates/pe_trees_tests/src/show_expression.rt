//! Writes expressions of Verilog with all their parentheses.

use pe_base::Name;
use pe_verilog_ast::{BinOp, Digit, Ex, Operand, Select, UnOp};
use std::alloc::{AllocError, Global};

fn binary_mark(op: BinOp) -> &'static str {
    match op {
        BinOp::Add => " + ",
        BinOp::Sub => " - ",
        BinOp::ShiftLeft => " << ",
        BinOp::ShiftRight => " >> ",
        BinOp::Less => " < ",
        BinOp::LessEqual => " <= ",
        BinOp::Greater => " > ",
        BinOp::GreaterEqual => " >= ",
        BinOp::Equal => " == ",
        BinOp::NotEqual => " != ",
        BinOp::And => " & ",
        BinOp::Xor => " ^ ",
        BinOp::Xnor => " ~^ ",
        BinOp::Or => " | ",
        BinOp::LogicAnd => " && ",
        BinOp::LogicOr => " || ",
    }
}

fn unary_mark(op: UnOp) -> &'static str {
    match op {
        UnOp::Not => "~",
        UnOp::And => "&",
        UnOp::Nand => "~&",
        UnOp::Or => "|",
        UnOp::Nor => "~|",
        UnOp::Xor => "^",
        UnOp::Xnor => "~^",
        UnOp::LogicNot => "!",
    }
}

fn digit_mark(digit: Digit) -> &'static str {
    match digit {
        Digit::Zero => "0",
        Digit::One => "1",
        Digit::X => "x",
        Digit::Skip => "z",
    }
}

/// Writes a name.
pub(crate) fn show_name(out: &mut String, name: &Name) -> Result<(), AllocError> {
    for byte in name.bytes() {
        out.push(char::from(*byte))?;
    }
    Ok(())
}

/// Writes a number as its size, `'b` and its digits from the first on that is not 0.
fn show_number(alloc: Global, out: &mut String, digits: &[Digit]) -> Result<(), AllocError> {
    let size = format!(in alloc; "{}'b", digits.len())?;
    out.push_str(size.as_str())?;
    let mut begun = false;
    for digit in digits.iter().rev() {
        begun = begun || *digit != Digit::Zero;
        if begun {
            out.push_str(digit_mark(*digit))?;
        }
    }
    if begun { Ok(()) } else { out.push_str("0") }
}

/// Writes expressions with commas between them.
#[cycle(expressions)]
pub(crate) fn show_list(alloc: Global, out: &mut String, values: &[Ex]) -> Result<(), AllocError> {
    for (i, value) in values.iter().enumerate() {
        out.push_str(if i == 0 { "" } else { ", " })?;
        show(alloc, out, value)?;
    }
    Ok(())
}

/// The operators and operands behind the first operand, each of which closes a parenthesis.
#[cycle(expressions)]
fn show_more(alloc: Global, out: &mut String, more: &[Operand]) -> Result<(), AllocError> {
    for operand in more {
        out.push_str(binary_mark(operand.op))?;
        show(alloc, out, &operand.value)?;
        out.push_str(")")?;
    }
    Ok(())
}

/// Writes which bits of a net are meant.
#[cycle(expressions)]
pub(crate) fn show_select(
    alloc: Global,
    out: &mut String,
    select: &Select,
) -> Result<(), AllocError> {
    match select {
        Select::Whole => Ok(()),
        Select::Bit(index) => {
            out.push_str("[")?;
            show(alloc, out, index.get())?;
            out.push_str("]")
        }
        Select::Part(left, right) => {
            out.push_str("[")?;
            show(alloc, out, left.get())?;
            out.push_str(":")?;
            show(alloc, out, right.get())?;
            out.push_str("]")
        }
    }
}

/// Writes an expression.
#[cycle(expressions)]
pub(crate) fn show(alloc: Global, out: &mut String, value: &Ex) -> Result<(), AllocError> {
    match value {
        Ex::Number { digits } => show_number(alloc, out, digits.as_slice()),
        Ex::Net { name, select } => {
            show_name(out, name)?;
            show_select(alloc, out, select)
        }
        Ex::Join(parts) => {
            out.push_str("{")?;
            show_list(alloc, out, parts.as_slice())?;
            out.push_str("}")
        }
        Ex::Repeat { count, parts } => {
            out.push_str("{")?;
            show(alloc, out, count.get())?;
            out.push_str("{")?;
            show_list(alloc, out, parts.as_slice())?;
            out.push_str("}}")
        }
        Ex::Unary(op, inner) => {
            out.push_str("(")?;
            out.push_str(unary_mark(*op))?;
            show(alloc, out, inner.get())?;
            out.push_str(")")
        }
        Ex::Chain { first, more } => {
            for _ in 0..more.len() {
                out.push_str("(")?;
            }
            show(alloc, out, first.get())?;
            show_more(alloc, out, more.as_slice())
        }
        Ex::Choose(condition, yes, no) => {
            out.push_str("(")?;
            show(alloc, out, condition.get())?;
            out.push_str(" ? ")?;
            show(alloc, out, yes.get())?;
            out.push_str(" : ")?;
            show(alloc, out, no.get())?;
            out.push_str(")")
        }
    }
}
