//! Sizes and weights of small expressions, worked out by hand.

use super::*;
use pe_base::Name;
use sqlite_items::{Boxed, Items};
use std::alloc::Global;
use std::test::Fail;

fn net(alloc: Global, name: &str) -> Result<Ex, Fail> {
    let name = Name::new(alloc, name.as_bytes())?;
    Ok(Ex::Net {
        name,
        select: Select::Whole,
    })
}

// 2 in three bits.
fn two(alloc: Global) -> Result<Ex, Fail> {
    let mut digits = Items::new(alloc);
    digits.push(Digit::Zero)?;
    digits.push(Digit::One)?;
    digits.push(Digit::Zero)?;
    Ok(Ex::Number { digits })
}

fn bit(alloc: Global, name: &str, index: Ex) -> Result<Ex, Fail> {
    let name = Name::new(alloc, name.as_bytes())?;
    let index = Boxed::new(alloc, index)?;
    Ok(Ex::Net {
        name,
        select: Select::Bit(index),
    })
}

fn pair(alloc: Global, a: Ex, op: BinOp, b: Ex) -> Result<Ex, Fail> {
    let first = Boxed::new(alloc, a)?;
    let mut more = Items::new(alloc);
    more.push(Operand { op, value: b })?;
    Ok(Ex::Chain { first, more })
}

// `a < b < c`
fn three(alloc: Global, a: Ex, b: Ex) -> Result<Ex, Fail> {
    let first = Boxed::new(alloc, a)?;
    let mut more = Items::new(alloc);
    more.push(Operand {
        op: BinOp::Less,
        value: b,
    })?;
    more.push(Operand {
        op: BinOp::Less,
        value: net(alloc, "c")?,
    })?;
    Ok(Ex::Chain { first, more })
}

fn parts(alloc: Global) -> Result<Items<Ex>, Fail> {
    let mut parts = Items::new(alloc);
    parts.push(net(alloc, "a")?)?;
    parts.push(net(alloc, "b")?)?;
    Ok(parts)
}

fn row(alloc: Global, number: u32) -> Result<Ex, Fail> {
    let a = net(alloc, "a")?;
    let b = net(alloc, "b")?;
    match number {
        0 => Ok(a),
        1 => two(alloc),
        2 => pair(alloc, a, BinOp::Add, b),
        3 => pair(alloc, a, BinOp::Less, b),
        4 => pair(alloc, a, BinOp::Equal, b),
        5 => pair(alloc, a, BinOp::ShiftLeft, b),
        6 => pair(alloc, a, BinOp::LogicAnd, b),
        7 => pair(alloc, a, BinOp::Xor, b),
        8 => bit(alloc, "b", two(alloc)?),
        9 => bit(alloc, "b", a),
        10 => Ok(Ex::Join(parts(alloc)?)),
        11 => Ok(Ex::Repeat {
            count: Boxed::new(alloc, two(alloc)?)?,
            parts: parts(alloc)?,
        }),
        12 => Ok(Ex::Unary(UnOp::Or, Boxed::new(alloc, a)?)),
        13 => Ok(Ex::Choose(
            Boxed::new(alloc, net(alloc, "c")?)?,
            Boxed::new(alloc, a)?,
            Boxed::new(alloc, b)?,
        )),
        14 => Ok(Ex::Unary(UnOp::Not, Boxed::new(alloc, b)?)),
        _ => three(alloc, a, b),
    }
}

// In a context of 10 bits, where `a` has 4 bits, `b` has 6 and `c` has 1.
#[test]
fn sizes_and_weights(rt: HostRuntime) -> Result<(), Fail> {
    let alloc = rt.alloc();
    let nets = [
        (Name::new(alloc, b"a")?, 4u32),
        (Name::new(alloc, b"b")?, 6u32),
        (Name::new(alloc, b"c")?, 1u32),
    ];
    let rows: [(u32, u64); 16] = [
        (4, 10),
        (3, 10),
        (6, 100),
        (1, 60),
        (1, 13),
        (4, 136),
        (1, 11),
        (6, 30),
        (1, 10),
        (1, 76),
        (10, 20),
        (20, 30),
        (1, 5),
        (6, 31),
        (6, 20),
        (1, 69),
    ];
    for i in 0..16u32 {
        let e = row(alloc, i)?;
        let (size, heavy) = rows[i as usize];
        assert!(rt; width(&e, &nets) == size);
        assert!(rt; weight(&e, 10, &nets) == heavy);
    }
    Ok(())
}
