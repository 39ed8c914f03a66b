//! Small modules: whether they are of the form, and their values, worked out by hand.

use pe_assigns::{input_names, is_rtl_form, nets, output_names, port_names, settle};
use pe_base::{Name, Val};
use pe_nets::NameIndex;
use pe_verilog_ast::{
    BinOp, Dir, Ex, HeadPort, Item, Module, NetKind, Operand, Port, Select, Source, Target, UnOp,
};
use sqlite_items::{Boxed, Items};
use std::alloc::Global;
use std::test::Fail;

fn net(alloc: Global, letter: u8) -> Result<Ex, Fail> {
    let name = Name::new(alloc, &[letter])?;
    Ok(Ex::Net {
        name,
        select: Select::Whole,
    })
}

fn joined(alloc: Global, op: BinOp, a: Ex, b: Ex) -> Result<Ex, Fail> {
    let mut more = Items::new(alloc);
    more.push(Operand { op, value: b })?;
    Ok(Ex::Chain {
        first: Boxed::new(alloc, a)?,
        more,
    })
}

// An expression in prefix form: letters are nets, `~` has one operand, `&`, `|` and `^` have two.
fn expression(alloc: Global, text: &[u8]) -> Result<Ex, Fail> {
    let mut stack: Vec<Ex> = Vec::new(alloc);
    for letter in text.iter().rev() {
        let next = match *letter {
            b'~' => {
                let a = stack.pop().ok_or("operand")?;
                Ex::Unary(UnOp::Not, Boxed::new(alloc, a)?)
            }
            b'&' => {
                let a = stack.pop().ok_or("operand")?;
                let b = stack.pop().ok_or("operand")?;
                joined(alloc, BinOp::And, a, b)?
            }
            b'|' => {
                let a = stack.pop().ok_or("operand")?;
                let b = stack.pop().ok_or("operand")?;
                joined(alloc, BinOp::Or, a, b)?
            }
            b'^' => {
                let a = stack.pop().ok_or("operand")?;
                let b = stack.pop().ok_or("operand")?;
                joined(alloc, BinOp::Xor, a, b)?
            }
            other => net(alloc, other)?,
        };
        stack.push(next)?;
    }
    Ok(stack.pop().ok_or("no expression")?)
}

// `ia` is an input, `oy` an output, `ba` a bidirectional port, `ry` an output that is a register.
fn ports(alloc: Global, text: &[u8]) -> Result<Items<HeadPort>, Fail> {
    let mut ports = Items::new(alloc);
    for pair in text.chunks(2) {
        if let [kind, letter] = pair {
            let dir = match *kind {
                b'i' => Dir::Input,
                b'b' => Dir::Inout,
                _ => Dir::Output,
            };
            let kind = if *kind == b'r' {
                Some(NetKind::Reg)
            } else {
                None
            };
            let name = Name::new(alloc, &[*letter])?;
            ports.push(HeadPort::Declared(Port {
                dir,
                kind,
                range: None,
                name,
            }))?;
        }
    }
    Ok(ports)
}

// `wv` is `wire v;`, and `=y` with an expression behind it an assignment to `y`.
fn item(alloc: Global, text: &[u8]) -> Result<Item, Fail> {
    match text {
        [b'w', letter] => {
            let mut nets = Items::new(alloc);
            nets.push((Name::new(alloc, &[*letter])?, None))?;
            Ok(Item::Net {
                kind: NetKind::Wire,
                range: None,
                nets,
            })
        }
        [_, letter, value @ ..] => {
            let name = Name::new(alloc, &[*letter])?;
            let target = Target::Net {
                name,
                select: Select::Whole,
            };
            let mut list = Items::new(alloc);
            list.push((target, expression(alloc, value)?))?;
            Ok(Item::Assign(list))
        }
        _ => Err(Fail::from("an item")),
    }
}

// Items are parted by `;`.
fn source(alloc: Global, head: &[u8], body: &[u8]) -> Result<Source, Fail> {
    let mut items = Items::new(alloc);
    for text in body.split(|b| *b == b';') {
        items.push(item(alloc, text)?)?;
    }
    let mut modules = Items::new(alloc);
    modules.push(Module {
        name: Name::new(alloc, b"top")?,
        params: Items::new(alloc),
        ports: ports(alloc, head)?,
        items,
    })?;
    Ok(Source { modules })
}

#[test]
fn which_modules_are_of_the_form(rt: HostRuntime) -> Result<(), Fail> {
    let alloc = rt.alloc();
    let rows: [(&[u8], &[u8], bool); 17] = [
        (b"iaiboy", b"=y&ab", true),
        (b"iaiboy", b"=y&a|b~a", true),
        (b"iaiboy", b"wv;=va;=y&vb", true),
        (b"iaiboy", b"=va;=y&vb;wv", true),
        (b"iaoyoz", b"=ya;=z~y", true),
        // An operand that is assigned only later, or from itself.
        (b"iaiboy", b"wv;=y&vb;=va", false),
        (b"iaoy", b"=y&ya", false),
        // Assigned twice, never, or an input.
        (b"iaoy", b"=ya;=ya", false),
        (b"iaoyoz", b"=ya", false),
        (b"iaoy", b"wv;=ya", false),
        (b"iaiboy", b"=ya;=ba", false),
        // A net that is not declared, declared twice, or of another kind.
        (b"iaoy", b"=yc", false),
        (b"iaoy", b"wa;=ya;=aa", false),
        (b"iaiaoy", b"=ya", false),
        (b"baoy", b"=ya", false),
        (b"iary", b"=ya", false),
        // Another operator.
        (b"iaiboy", b"=y^ab", false),
    ];
    for (head, body, expected) in rows {
        let tree = source(alloc, head, body)?;
        assert_eq!(rt; is_rtl_form(alloc, &tree)?, expected);
    }
    let none = Source {
        modules: Items::new(alloc),
    };
    assert!(rt; !is_rtl_form(alloc, &none)?);
    Ok(())
}

fn digit(value: Val) -> u8 {
    match value {
        Val::Zero => b'0',
        Val::One => b'1',
        Val::Corrupt => b'x',
    }
}

fn text(alloc: Global, values: &[Val]) -> Result<Vec<u8>, Fail> {
    let mut digits = Vec::new(alloc);
    for value in values {
        digits.push(digit(*value))?;
    }
    Ok(digits)
}

// `assign v = ~(a & b); assign y = v | (c & a);`, with the nets a, b, c, y, v.
#[test]
fn values_of_nets(rt: HostRuntime) -> Result<(), Fail> {
    let alloc = rt.alloc();
    let tree = source(alloc, b"iaibicoy", b"wv;=v~&ab;=y|v&ca")?;
    let well = is_rtl_form(alloc, &tree)?;
    assert!(rt; well);
    let m = match tree.modules.as_slice() {
        [m] => m,
        _ => return Err(Fail::from("one module")),
    };
    let inputs = input_names(alloc, m)?;
    assert_eq!(rt; inputs.len(), 3);
    assert_eq!(rt; output_names(alloc, m)?.len(), 1);
    assert_eq!(rt; port_names(alloc, m)?.len(), 4);
    let names = nets(alloc, m)?;
    let index = NameIndex::of(alloc, names.as_slice())?.ok_or("different names")?;
    let rows: [(bool, [bool; 3], &[u8]); 5] = [
        (true, [false, false, false], b"00011"),
        (true, [true, true, false], b"11000"),
        (true, [true, true, true], b"11110"),
        (true, [false, true, true], b"01111"),
        (false, [true, true, true], b"111xx"),
    ];
    for (on, bits, expected) in rows {
        let values = settle(alloc, m, &index, on, &bits)?;
        assert_eq!(rt; text(alloc, &values)?.as_slice(), expected);
    }
    Ok(())
}
