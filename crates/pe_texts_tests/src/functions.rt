//! Whether the clauses say what is meant: trees, places and values that were found by hand.

use pe_base::{Name, Val};
use pe_bool_expr::{Expr, ExprFault, Style, eval3, parse};
use sqlite_items::Items;
use std::alloc::{AllocError, Global};
use std::test::Fail;

/// The greatest text that may be read.
const MOST: usize = 16_777_216;

fn names(alloc: Global, texts: &[&str]) -> Result<Items<Name>, ExprFault> {
    let mut names = Items::new(alloc);
    for text in texts {
        names.push(Name::new(alloc, text.as_bytes())?)?;
    }
    Ok(names)
}

/// The function over the names A, B, C and D.
fn read(alloc: Global, style: Style, text: &[u8]) -> Result<Expr, ExprFault> {
    if text.len() > MOST {
        return Err(ExprFault::Memory);
    }
    let names = names(alloc, &["A", "B", "C", "D"])?;
    parse(alloc, text, style, names.as_slice())
}

/// The value of a function over the names A, B, S and C, in the style of Liberty.
fn value(alloc: Global, text: &[u8], values: &[Val]) -> Result<Val, ExprFault> {
    if text.len() > MOST {
        return Err(ExprFault::Memory);
    }
    let names = names(alloc, &["A", "B", "S", "C"])?;
    let function = parse(alloc, text, Style::Liberty, names.as_slice())?;
    Ok(eval3(&function, values))
}

/// The mark between the operands of a tree of two.
fn mark(e: &Expr) -> &'static str {
    match e {
        Expr::And(_, _) => "*",
        Expr::Or(_, _) => "+",
        Expr::Xor(_, _) => "^",
        _ => "",
    }
}

/// Writes a tree with all parentheses, its pins as small letters.
fn show(e: &Expr, out: &mut String) -> Result<(), AllocError> {
    match e {
        Expr::Const(false) => out.push_str("0"),
        Expr::Const(true) => out.push_str("1"),
        Expr::Pin(0) => out.push_str("a"),
        Expr::Pin(1) => out.push_str("b"),
        Expr::Pin(2) => out.push_str("c"),
        Expr::Pin(3) => out.push_str("d"),
        Expr::Pin(_) => out.push_str("?"),
        Expr::Not(inner) => {
            out.push_str("!")?;
            show(inner.get(), out)
        }
        Expr::And(first, second) | Expr::Or(first, second) | Expr::Xor(first, second) => {
            out.push_str("(")?;
            show(first.get(), out)?;
            out.push_str(mark(e))?;
            show(second.get(), out)?;
            out.push_str(")")
        }
    }
}

#[test]
fn trees_of_liberty(rt: HostRuntime) -> Result<(), Fail> {
    let cases = [
        ("A", "a"),
        ("!A", "!a"),
        ("A'", "!a"),
        ("A''", "a"),
        ("A' ' '", "!a"),
        ("!A'", "!!a"),
        ("!!A", "!!a"),
        ("A+B", "(a+b)"),
        ("A|B", "(a+b)"),
        ("A*B", "(a*b)"),
        ("A&B", "(a*b)"),
        ("A B", "(a*b)"),
        ("A\n\tB", "(a*b)"),
        ("A^B", "(a^b)"),
        ("A + B' C", "(a+(!b*c))"),
        ("A B + C", "((a*b)+c)"),
        ("A * (B + C)", "(a*(b+c))"),
        ("A ^ B C", "((a^b)*c)"),
        ("A + B + C", "(a+(b+c))"),
        ("A + B | C + D", "((a+b)+(c+d))"),
        ("A+B+C+D+A", "((a+b)+(c+(d+a)))"),
        ("0", "0"),
        ("1 ^ A", "(1^a)"),
        ("(A)", "a"),
        ("(A + B)'", "!(a+b)"),
        ("A !B", "(a*!b)"),
        ("A'B'", "(!a*!b)"),
        ("((A))(B)", "(a*b)"),
    ];
    for (text, tree) in cases {
        let mut out = String::new(rt.alloc());
        show(
            &read(rt.alloc(), Style::Liberty, text.as_bytes())?,
            &mut out,
        )?;
        assert_eq!(rt; out.as_str(), tree, "{text}");
    }
    Ok(())
}

#[test]
fn trees_of_upf(rt: HostRuntime) -> Result<(), Fail> {
    let cases = [
        ("A & B | C", "((a*b)+c)"),
        ("A | B & C", "(a+(b*c))"),
        ("A ^ B & C", "(a^(b*c))"),
        ("A | B ^ C", "(a+(b^c))"),
        ("A && B | C", "(a*(b+c))"),
        ("A || B && C", "(a+(b*c))"),
        ("A || B | C", "(a+(b+c))"),
        ("~A & !B", "(!a*!b)"),
        ("!~A", "!!a"),
        ("1'b0 | A", "(0+a)"),
        ("1'b1", "1"),
        ("1 & 0", "(1*0)"),
        ("!(A || B)", "!(a+b)"),
        ("A & B & C", "(a*(b*c))"),
    ];
    for (text, tree) in cases {
        let mut out = String::new(rt.alloc());
        show(&read(rt.alloc(), Style::Upf, text.as_bytes())?, &mut out)?;
        assert_eq!(rt; out.as_str(), tree, "{text}");
    }
    Ok(())
}

#[test]
fn refusals(rt: HostRuntime) -> Result<(), Fail> {
    let cases = [
        (Style::Liberty, "", ExprFault::Syntax { at: 0 }),
        (Style::Liberty, "+", ExprFault::Syntax { at: 0 }),
        (Style::Liberty, "A +", ExprFault::Syntax { at: 3 }),
        (Style::Liberty, "A + + B", ExprFault::Syntax { at: 4 }),
        (Style::Liberty, "(A", ExprFault::Syntax { at: 2 }),
        (Style::Liberty, "A)", ExprFault::Syntax { at: 1 }),
        (Style::Liberty, "'A", ExprFault::Syntax { at: 0 }),
        (Style::Liberty, "E + + # B", ExprFault::Syntax { at: 6 }),
        (Style::Liberty, "A + E)", ExprFault::Syntax { at: 5 }),
        (Style::Liberty, "A + E + F", ExprFault::NoName { at: 4 }),
        (Style::Liberty, "A~", ExprFault::Syntax { at: 1 }),
        (Style::Upf, "A B", ExprFault::Syntax { at: 2 }),
        (Style::Upf, "A + B", ExprFault::Syntax { at: 2 }),
        (Style::Upf, "A'", ExprFault::Syntax { at: 1 }),
        (Style::Upf, "1'b2", ExprFault::Syntax { at: 1 }),
        (Style::Upf, "A & & B", ExprFault::Syntax { at: 4 }),
        (Style::Upf, "!", ExprFault::Syntax { at: 1 }),
        (Style::Upf, "a | A", ExprFault::NoName { at: 0 }),
    ];
    for (style, text, fault) in cases {
        let answer = read(rt.alloc(), style, text.as_bytes());
        assert_eq!(rt; answer.err(), Some(fault), "{text}");
    }
    Ok(())
}

#[test]
fn a_name_is_its_first_place(rt: HostRuntime) -> Result<(), Fail> {
    let names = names(rt.alloc(), &["C", "B", "A", "A", "B"])?;
    let e = parse(rt.alloc(), b"A + B", Style::Upf, names.as_slice()).err();
    assert_eq!(rt; e, Some(ExprFault::Syntax { at: 2 }));
    let mut out = String::new(rt.alloc());
    show(
        &parse(rt.alloc(), b"A | B", Style::Upf, names.as_slice())?,
        &mut out,
    )?;
    assert_eq!(rt; out.as_str(), "(c+b)");
    Ok(())
}

/// One byte so many times, then a text, and another byte so many times.
fn within(
    alloc: Global,
    before: u8,
    open: u32,
    middle: &str,
    after: u8,
    close: u32,
) -> Result<Vec<u8>, AllocError> {
    let mut text = Vec::new(alloc);
    for _ in 0..open {
        text.push(before)?;
    }
    for byte in middle.as_bytes() {
        text.push(*byte)?;
    }
    for _ in 0..close {
        text.push(after)?;
    }
    Ok(text)
}

#[test]
fn nesting(rt: HostRuntime) -> Result<(), Fail> {
    let (liberty, upf) = (Style::Liberty, Style::Upf);
    let deep = Some(ExprFault::Deep { at: 64 });
    let cases = [
        (liberty, b'(', 64, "A", 64, None),
        (liberty, b'(', 65, "A", 65, deep),
        (liberty, b'(', 65, "", 0, Some(ExprFault::Syntax { at: 65 })),
        (
            liberty,
            b'(',
            65,
            "A",
            64,
            Some(ExprFault::Syntax { at: 130 }),
        ),
        (
            liberty,
            b'(',
            66,
            "A",
            67,
            Some(ExprFault::Syntax { at: 133 }),
        ),
        (
            liberty,
            b'(',
            65,
            "E",
            65,
            Some(ExprFault::NoName { at: 65 }),
        ),
        (liberty, b'(', 65, "A B'", 65, deep),
        (upf, b'(', 65, "A A", 65, Some(ExprFault::Syntax { at: 67 })),
        (upf, b'(', 65, "A & ~A", 65, deep),
        (upf, b'!', 64, "A", 0, None),
        (upf, b'!', 65, "A", 0, deep),
        (liberty, b'!', 65, "", 0, Some(ExprFault::Syntax { at: 65 })),
        (
            liberty,
            b'!',
            65,
            "A",
            1,
            Some(ExprFault::Syntax { at: 66 }),
        ),
        (
            liberty,
            b'(',
            1_000_000,
            "",
            0,
            Some(ExprFault::Syntax { at: 1_000_000 }),
        ),
    ];
    for (style, before, open, middle, close, fault) in cases {
        let text = within(rt.alloc(), before, open, middle, b')', close)?;
        let answer = read(rt.alloc(), style, text.as_slice()).err();
        assert_eq!(rt; answer, fault, "{open} {middle} {close}");
    }
    // The marks before a parenthesis are open until it closes, and those of an operand until it ends.
    let mut text = within(rt.alloc(), b'!', 40, "(", b'!', 23)?;
    text.push(b'A')?;
    for _ in 0..23 {
        text.push(b'!')?;
    }
    text.push(b'A')?;
    assert_eq!(rt;
        read(rt.alloc(), Style::Liberty, text.as_slice()).err(),
        Some(ExprFault::Syntax { at: 89 })
    );
    for _ in 0..24 {
        text.push(b'!')?;
    }
    assert_eq!(rt;
        read(rt.alloc(), Style::Liberty, text.as_slice()).err(),
        Some(ExprFault::Syntax { at: 113 })
    );
    text.push(b'A')?;
    text.push(b')')?;
    assert_eq!(rt;
        read(rt.alloc(), Style::Liberty, text.as_slice()).err(),
        Some(ExprFault::Deep { at: 112 })
    );
    Ok(())
}

#[test]
fn too_many_inputs(rt: HostRuntime) -> Result<(), Fail> {
    let letters = ["a", "b", "c", "d", "e", "f", "g", "h", "i", "j", "k"];
    let names = names(rt.alloc(), &letters)?;
    let text = b"a+b+c+d+e+f+g+h+i+j+k+a";
    let answer = parse(rt.alloc(), text, Style::Liberty, names.as_slice());
    assert_eq!(rt; answer.err(), Some(ExprFault::Inputs { count: 11 }));
    let text = b"a+b+c+d+e+f+g+h+i+j+a";
    assert!(rt; parse(rt.alloc(), text, Style::Liberty, names.as_slice()).is_ok());
    Ok(())
}

#[test]
fn values(rt: HostRuntime) -> Result<(), Fail> {
    let (o, i, x) = (Val::Zero, Val::One, Val::Corrupt);
    let cases = [
        ("A + B' C", [o, x, o, i], x),
        ("A + B' C", [i, x, o, x], i),
        ("A * !S + B * S", [i, i, x, o], i),
        ("A * !S + B * S", [i, o, x, o], x),
        ("A + !A", [x, o, o, o], i),
        ("A A'", [x, o, o, o], o),
        ("A ^ B ^ A", [x, i, o, o], i),
        ("1", [x, x, x, x], i),
        ("A B S C + A' + B' + S' + C'", [x, x, x, x], i),
        ("A B S C", [x, x, o, x], o),
    ];
    for (text, inputs, outcome) in cases {
        assert_eq!(rt;
            value(rt.alloc(), text.as_bytes(), inputs.as_slice())?,
            outcome,
            "{text}"
        );
    }
    Ok(())
}

#[test]
fn long_texts(rt: HostRuntime) -> Result<(), Fail> {
    let mut marks = Vec::new(rt.alloc());
    let mut chain = Vec::new(rt.alloc());
    marks.push(b'A')?;
    chain.push(b'A')?;
    for _ in 0..1_000_000 {
        marks.push(b'\'')?;
        chain.push(b'+')?;
        chain.push(b'A')?;
    }
    assert_eq!(rt; value(rt.alloc(), marks.as_slice(), &[Val::One])?, Val::One);
    assert_eq!(rt;
        value(rt.alloc(), chain.as_slice(), &[Val::Corrupt])?,
        Val::Corrupt
    );
    Ok(())
}
