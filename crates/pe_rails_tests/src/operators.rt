//! Whether the definitions say what is meant: values that were found by hand, of the plain operators and of those on
//! rails. Words have the highest bit first, and `x` is a corrupt bit.

ghost use Rattle.std.specs.Prelude.{◌≡◌, IfOk, All, length};
ghost use Rattle.pe_rail_ops.specs.Rails.{IsRail};

use pe_base::{Name, Val, Want, words};
use pe_bool_expr::{ExprFault, Style, eval3, parse};
use pe_graph::{Graph, Marks};
use pe_rail_ops::{
    Rail, add, and, bit, choose, equal, exact, greater, greater_equal, less, less_equal, logic_and,
    logic_not, logic_or, not, not_equal, or, pick, reduce_and, reduce_nand, reduce_nor, reduce_or,
    reduce_xnor, reduce_xor, shift_left, shift_right, subtract, xnor, xor,
};
use sqlite_items::Items;
use std::alloc::Global;
use std::test::Fail;

/// An operator on one word.
#[derive(Clone, Copy, Debug)]
enum Unary {
    Not,
    And,
    Nand,
    Or,
    Nor,
    Xor,
    Xnor,
    LogicNot,
}

/// An operator on two words of one width.
#[derive(Clone, Copy, Debug)]
enum Equal {
    And,
    Or,
    Xor,
    Xnor,
    Add,
    Subtract,
    Less,
    LessEqual,
    Greater,
    GreaterEqual,
    Same,
    Other,
}

/// An operator on two words of any widths.
#[derive(Clone, Copy, Debug)]
enum Mixed {
    LogicAnd,
    LogicOr,
    ShiftLeft,
    ShiftRight,
    Pick,
}

const UNARY: [Unary; 8] = [
    Unary::Not,
    Unary::And,
    Unary::Nand,
    Unary::Or,
    Unary::Nor,
    Unary::Xor,
    Unary::Xnor,
    Unary::LogicNot,
];

const EQUAL: [Equal; 12] = [
    Equal::And,
    Equal::Or,
    Equal::Xor,
    Equal::Xnor,
    Equal::Add,
    Equal::Subtract,
    Equal::Less,
    Equal::LessEqual,
    Equal::Greater,
    Equal::GreaterEqual,
    Equal::Same,
    Equal::Other,
];

const MIXED: [Mixed; 5] = [
    Mixed::LogicAnd,
    Mixed::LogicOr,
    Mixed::ShiftLeft,
    Mixed::ShiftRight,
    Mixed::Pick,
];

/// The values of a text, the lowest bit first.
fn word(alloc: Global, text: &str) -> Result<Items<Val>, Want> {
    let mut values = Items::new(alloc);
    for byte in text.as_bytes().iter().rev() {
        values.push(match byte {
            b'0' => Val::Zero,
            b'1' => Val::One,
            _ => Val::Corrupt,
        })?;
    }
    Ok(values)
}

/// Rails of these values.
fn constants(alloc: Global, graph: &Graph, values: &[Val]) -> Result<Items<Rail>, Want>
    ensures { IfOk result (λ rails. All (IsRail graph.now) rails) }
{
    graph.graph_law();
    let mut rails = Items::new(alloc);
    for i in 0..values.len() {
        rails.push(bit::constant(values[i]))?;
    }
    Ok(rails)
}

/// The value of a rail, and want where it is both.
fn value(alloc: Global, graph: &Graph, rail: &Rail) -> Result<Val, Want> {
    let mut marks = Marks::new(alloc, graph)?;
    let (Some(one), Some(zero)) = (graph.lit(rail.one.code()), graph.lit(rail.zero.code())) else {
        return Err(Want);
    };
    let one = graph.value(one, &[], &mut marks);
    let zero = graph.value(zero, &[], &mut marks);
    match (one, zero) {
        (true, true) => Err(Want),
        (true, false) => Ok(Val::One),
        (false, true) => Ok(Val::Zero),
        (false, false) => Ok(Val::Corrupt),
    }
}

fn values(alloc: Global, graph: &Graph, rails: &[Rail]) -> Result<Items<Val>, Want> {
    let mut values = Items::new(alloc);
    for rail in rails {
        values.push(value(alloc, graph, rail)?)?;
    }
    Ok(values)
}

fn plain_unary(alloc: Global, operator: Unary, a: &[Val]) -> Result<Items<Val>, Want> {
    match operator {
        Unary::Not => words::not(alloc, a),
        Unary::And => words::reduce_and(alloc, a),
        Unary::Nand => words::reduce_nand(alloc, a),
        Unary::Or => words::reduce_or(alloc, a),
        Unary::Nor => words::reduce_nor(alloc, a),
        Unary::Xor => words::reduce_xor(alloc, a),
        Unary::Xnor => words::reduce_xnor(alloc, a),
        Unary::LogicNot => words::logic_not(alloc, a),
    }
}

fn rails_unary(
    alloc: Global,
    graph: &mut Graph,
    operator: Unary,
    a: &[Rail],
) -> Result<Items<Rail>, Want>
    requires { All (IsRail graph.old) a.now }
{
    match operator {
        Unary::Not => not(alloc, graph, a),
        Unary::And => reduce_and(alloc, graph, a),
        Unary::Nand => reduce_nand(alloc, graph, a),
        Unary::Or => reduce_or(alloc, graph, a),
        Unary::Nor => reduce_nor(alloc, graph, a),
        Unary::Xor => reduce_xor(alloc, graph, a),
        Unary::Xnor => reduce_xnor(alloc, graph, a),
        Unary::LogicNot => logic_not(alloc, graph, a),
    }
}

fn plain_equal(alloc: Global, operator: Equal, a: &[Val], b: &[Val]) -> Result<Items<Val>, Want>
    requires { length a.now ≡ length b.now }
{
    match operator {
        Equal::And => words::and(alloc, a, b),
        Equal::Or => words::or(alloc, a, b),
        Equal::Xor => words::xor(alloc, a, b),
        Equal::Xnor => words::xnor(alloc, a, b),
        Equal::Add => words::add(alloc, a, b),
        Equal::Subtract => words::subtract(alloc, a, b),
        Equal::Less => words::less(alloc, a, b),
        Equal::LessEqual => words::less_equal(alloc, a, b),
        Equal::Greater => words::greater(alloc, a, b),
        Equal::GreaterEqual => words::greater_equal(alloc, a, b),
        Equal::Same => words::equal(alloc, a, b),
        Equal::Other => words::not_equal(alloc, a, b),
    }
}

fn rails_equal(
    alloc: Global,
    graph: &mut Graph,
    operator: Equal,
    a: &[Rail],
    b: &[Rail],
) -> Result<Items<Rail>, Want>
    requires widths { length a.now ≡ length b.now }
    requires a_in { All (IsRail graph.old) a.now }
    requires b_in { All (IsRail graph.old) b.now }
{
    match operator {
        Equal::And => and(alloc, graph, a, b),
        Equal::Or => or(alloc, graph, a, b),
        Equal::Xor => xor(alloc, graph, a, b),
        Equal::Xnor => xnor(alloc, graph, a, b),
        Equal::Add => add(alloc, graph, a, b),
        Equal::Subtract => subtract(alloc, graph, a, b),
        Equal::Less => less(alloc, graph, a, b),
        Equal::LessEqual => less_equal(alloc, graph, a, b),
        Equal::Greater => greater(alloc, graph, a, b),
        Equal::GreaterEqual => greater_equal(alloc, graph, a, b),
        Equal::Same => equal(alloc, graph, a, b),
        Equal::Other => not_equal(alloc, graph, a, b),
    }
}

fn plain_mixed(alloc: Global, operator: Mixed, a: &[Val], b: &[Val]) -> Result<Items<Val>, Want> {
    match operator {
        Mixed::LogicAnd => words::logic_and(alloc, a, b),
        Mixed::LogicOr => words::logic_or(alloc, a, b),
        Mixed::ShiftLeft => words::shift_left(alloc, a, b),
        Mixed::ShiftRight => words::shift_right(alloc, a, b),
        Mixed::Pick => words::pick(alloc, a, b),
    }
}

fn rails_mixed(
    alloc: Global,
    graph: &mut Graph,
    operator: Mixed,
    a: &[Rail],
    b: &[Rail],
) -> Result<Items<Rail>, Want>
    requires a_in { All (IsRail graph.old) a.now }
    requires b_in { All (IsRail graph.old) b.now }
{
    match operator {
        Mixed::LogicAnd => logic_and(alloc, graph, a, b),
        Mixed::LogicOr => logic_or(alloc, graph, a, b),
        Mixed::ShiftLeft => shift_left(alloc, graph, a, b),
        Mixed::ShiftRight => shift_right(alloc, graph, a, b),
        Mixed::Pick => pick(alloc, graph, a, b),
    }
}

/// What the plain operator gives, and the value of what it gives on rails.
fn of_one(alloc: Global, operator: Unary, a: &str) -> Result<(Items<Val>, Items<Val>), Want> {
    let a = word(alloc, a)?;
    let plain = plain_unary(alloc, operator, a.as_slice())?;
    let mut graph = Graph::new(alloc)?;
    let a = constants(alloc, &graph, a.as_slice())?;
    let rails = rails_unary(alloc, &mut graph, operator, a.as_slice())?;
    Ok((plain, values(alloc, &graph, rails.as_slice())?))
}

fn of_two(
    alloc: Global,
    operator: Equal,
    a: &str,
    b: &str,
) -> Result<(Items<Val>, Items<Val>), Want> {
    let a = word(alloc, a)?;
    let b = word(alloc, b)?;
    if a.len() != b.len() {
        return Err(Want);
    }
    let plain = plain_equal(alloc, operator, a.as_slice(), b.as_slice())?;
    let mut graph = Graph::new(alloc)?;
    let a = constants(alloc, &graph, a.as_slice())?;
    let b = constants(alloc, &graph, b.as_slice())?;
    if a.len() != b.len() {
        return Err(Want);
    }
    let rails = rails_equal(alloc, &mut graph, operator, a.as_slice(), b.as_slice())?;
    Ok((plain, values(alloc, &graph, rails.as_slice())?))
}

fn of_any(
    alloc: Global,
    operator: Mixed,
    a: &str,
    b: &str,
) -> Result<(Items<Val>, Items<Val>), Want> {
    let a = word(alloc, a)?;
    let b = word(alloc, b)?;
    let plain = plain_mixed(alloc, operator, a.as_slice(), b.as_slice())?;
    let mut graph = Graph::new(alloc)?;
    let a = constants(alloc, &graph, a.as_slice())?;
    let b = constants(alloc, &graph, b.as_slice())?;
    let rails = rails_mixed(alloc, &mut graph, operator, a.as_slice(), b.as_slice())?;
    Ok((plain, values(alloc, &graph, rails.as_slice())?))
}

fn chosen(alloc: Global, c: &str, a: &str, b: &str) -> Result<(Items<Val>, Items<Val>), Want> {
    let c = word(alloc, c)?;
    let a = word(alloc, a)?;
    let b = word(alloc, b)?;
    if a.len() != b.len() {
        return Err(Want);
    }
    let plain = words::choose(alloc, c.as_slice(), a.as_slice(), b.as_slice())?;
    let mut graph = Graph::new(alloc)?;
    let c = constants(alloc, &graph, c.as_slice())?;
    let a = constants(alloc, &graph, a.as_slice())?;
    let b = constants(alloc, &graph, b.as_slice())?;
    if a.len() != b.len() {
        return Err(Want);
    }
    let rails = choose(alloc, &mut graph, c.as_slice(), a.as_slice(), b.as_slice())?;
    Ok((plain, values(alloc, &graph, rails.as_slice())?))
}

#[test]
fn operators_on_one_word(rt: HostRuntime) -> Result<(), Fail> {
    // ~, &, ~&, |, ~|, ^, ~^, !
    let cases = [
        ("0x11", ["1x00", "0", "1", "1", "0", "x", "x", "0"]),
        ("0x00", ["1x11", "0", "1", "x", "x", "x", "x", "x"]),
        ("1x11", ["0x00", "x", "x", "1", "0", "x", "x", "0"]),
        ("xxxx", ["xxxx", "x", "x", "x", "x", "x", "x", "x"]),
        ("x000", ["x111", "0", "1", "x", "x", "x", "x", "x"]),
        ("1x", ["0x", "x", "x", "1", "0", "x", "x", "0"]),
        ("0x", ["1x", "0", "1", "x", "x", "x", "x", "x"]),
        ("x", ["x", "x", "x", "x", "x", "x", "x", "x"]),
        ("x1x1", ["x0x0", "x", "x", "1", "0", "x", "x", "0"]),
        ("1011", ["0100", "0", "1", "1", "0", "1", "0", "0"]),
        ("1111", ["0000", "1", "0", "1", "0", "0", "1", "0"]),
        ("0000", ["1111", "0", "1", "0", "1", "0", "1", "1"]),
    ];
    for (a, expected) in cases {
        for (operator, expected) in UNARY.into_iter().zip(expected) {
            let (plain, rails) = of_one(rt.alloc(), operator, a)?;
            let expected = word(rt.alloc(), expected)?;
            assert_eq!(rt; plain.as_slice(), expected.as_slice(), "{operator:?} {a}");
            assert_eq!(rt; rails.as_slice(), expected.as_slice(), "{operator:?} {a}");
        }
    }
    Ok(())
}

#[test]
fn operators_on_two_words_of_one_width(rt: HostRuntime) -> Result<(), Fail> {
    // &, |, ^, ~^, +, -, <, <=, >, >=, ==, !=
    let cases = [
        (
            "1x00",
            "0001",
            [
                "0000", "1x01", "1x01", "0x10", "xxxx", "xxxx", "x", "x", "x", "x", "0", "1",
            ],
        ),
        (
            "1x00",
            "0000",
            [
                "0000", "1x00", "1x00", "0x11", "xxxx", "xxxx", "x", "x", "x", "x", "0", "1",
            ],
        ),
        (
            "0x00",
            "0000",
            [
                "0000", "0x00", "0x00", "1x11", "xxxx", "xxxx", "x", "x", "x", "x", "x", "x",
            ],
        ),
        (
            "0101",
            "0x01",
            [
                "0x01", "0101", "0x00", "1x11", "xxxx", "xxxx", "x", "x", "x", "x", "x", "x",
            ],
        ),
        (
            "11x1",
            "1x11",
            [
                "1xx1", "1111", "0xx0", "1xx1", "xxxx", "xxxx", "x", "x", "x", "x", "x", "x",
            ],
        ),
        (
            "xxxx",
            "0011",
            [
                "00xx", "xx11", "xxxx", "xxxx", "xxxx", "xxxx", "x", "x", "x", "x", "x", "x",
            ],
        ),
        (
            "1010",
            "xxxx",
            [
                "x0x0", "1x1x", "xxxx", "xxxx", "xxxx", "xxxx", "x", "x", "x", "x", "x", "x",
            ],
        ),
        (
            "00x0",
            "0100",
            [
                "0000", "01x0", "01x0", "10x1", "xxxx", "xxxx", "x", "x", "x", "x", "0", "1",
            ],
        ),
        (
            "x001",
            "0010",
            [
                "0000", "x011", "x011", "x100", "xxxx", "xxxx", "x", "x", "x", "x", "0", "1",
            ],
        ),
        (
            "0000",
            "000x",
            [
                "0000", "000x", "000x", "111x", "xxxx", "xxxx", "x", "x", "x", "x", "x", "x",
            ],
        ),
        (
            "01",
            "0x",
            [
                "0x", "01", "0x", "1x", "xx", "xx", "x", "x", "x", "x", "x", "x",
            ],
        ),
        (
            "1011",
            "0110",
            [
                "0010", "1111", "1101", "0010", "0001", "0101", "0", "0", "1", "1", "0", "1",
            ],
        ),
        (
            "0011",
            "1001",
            [
                "0001", "1011", "1010", "0101", "1100", "1010", "1", "1", "0", "0", "0", "1",
            ],
        ),
        (
            "1010",
            "1010",
            [
                "1010", "1010", "0000", "1111", "0100", "0000", "0", "1", "0", "1", "1", "0",
            ],
        ),
    ];
    for (a, b, expected) in cases {
        for (operator, expected) in EQUAL.into_iter().zip(expected) {
            let (plain, rails) = of_two(rt.alloc(), operator, a, b)?;
            let expected = word(rt.alloc(), expected)?;
            assert_eq!(rt;
                plain.as_slice(),
                expected.as_slice(),
                "{a} {operator:?} {b}"
            );
            assert_eq!(rt;
                rails.as_slice(),
                expected.as_slice(),
                "{a} {operator:?} {b}"
            );
        }
    }
    Ok(())
}

#[test]
fn operators_on_two_words_of_any_widths(rt: HostRuntime) -> Result<(), Fail> {
    // &&, ||, <<, >>, []
    let cases = [
        ("1x00", "0001", ["1", "1", "x000", "01x0", "0"]),
        ("1x00", "0000", ["0", "1", "1x00", "1x00", "0"]),
        ("0x00", "0000", ["0", "x", "0x00", "0x00", "0"]),
        ("0101", "0x01", ["1", "1", "xxxx", "xxxx", "x"]),
        ("11x1", "1x11", ["1", "1", "xxxx", "xxxx", "x"]),
        ("xxxx", "0011", ["x", "1", "x000", "000x", "x"]),
        ("1010", "xxxx", ["x", "1", "xxxx", "xxxx", "x"]),
        ("00x0", "0100", ["x", "1", "0000", "0000", "x"]),
        ("x001", "0010", ["1", "1", "0100", "00x0", "0"]),
        ("0000", "000x", ["0", "x", "xxxx", "xxxx", "x"]),
        ("11110000", "0x00", ["x", "1", "xxxxxxxx", "xxxxxxxx", "x"]),
        ("x1", "1", ["1", "1", "10", "0x", "x"]),
        ("1011", "10", ["1", "1", "1100", "0010", "0"]),
        ("1011", "11", ["1", "1", "1000", "0001", "1"]),
    ];
    for (a, b, expected) in cases {
        for (operator, expected) in MIXED.into_iter().zip(expected) {
            let (plain, rails) = of_any(rt.alloc(), operator, a, b)?;
            let expected = word(rt.alloc(), expected)?;
            assert_eq!(rt;
                plain.as_slice(),
                expected.as_slice(),
                "{a} {operator:?} {b}"
            );
            assert_eq!(rt;
                rails.as_slice(),
                expected.as_slice(),
                "{a} {operator:?} {b}"
            );
        }
    }
    Ok(())
}

#[test]
fn choices(rt: HostRuntime) -> Result<(), Fail> {
    let cases = [
        ("x", "1010", "1000", "10x0"),
        ("1", "1x10", "0000", "1x10"),
        ("0", "1x10", "0x01", "0x01"),
        ("x", "xxxx", "1010", "xxxx"),
        ("x", "1x01", "1x01", "1x01"),
        ("0x", "1100", "1010", "1xx0"),
        ("1x", "01x1", "1010", "01x1"),
        ("x0", "0000", "0000", "0000"),
        ("00", "x", "1", "1"),
        ("x", "0", "1", "x"),
    ];
    for (c, a, b, expected) in cases {
        let (plain, rails) = chosen(rt.alloc(), c, a, b)?;
        let expected = word(rt.alloc(), expected)?;
        assert_eq!(rt; plain.as_slice(), expected.as_slice(), "{c} ? {a} : {b}");
        assert_eq!(rt; rails.as_slice(), expected.as_slice(), "{c} ? {a} : {b}");
    }
    Ok(())
}

fn names(alloc: Global, texts: &[&str]) -> Result<Items<Name>, ExprFault> {
    let mut names = Items::new(alloc);
    for text in texts {
        names.push(Name::new(alloc, text.as_bytes())?)?;
    }
    Ok(names)
}

/// The value of a function of A, B and C, plain and on rails.
fn extended(alloc: Global, text: &str, pins: &str) -> Result<(Val, Val), ExprFault> {
    if text.len() > 1000 {
        return Err(ExprFault::Memory);
    }
    let names = names(alloc, &["A", "B", "C"])?;
    let function = parse(alloc, text.as_bytes(), Style::Liberty, names.as_slice())?;
    let pins = word(alloc, pins)?;
    let plain = eval3(&function, pins.as_slice());
    let mut graph = Graph::new(alloc)?;
    let rails = constants(alloc, &graph, pins.as_slice())?;
    let rail = exact(alloc, &mut graph, &function, rails.as_slice())?;
    Ok((plain, value(alloc, &graph, &rail)?))
}

#[test]
fn exact_extensions(rt: HostRuntime) -> Result<(), Fail> {
    // The values are those of C, B and A.
    let cases = [
        ("A B + !A C", "11x", Val::One),
        ("A B + !A C", "10x", Val::Corrupt),
        ("A B + !A C", "00x", Val::Zero),
        ("A + !A", "00x", Val::One),
        ("A ^ A", "11x", Val::Zero),
        ("A C", "0xx", Val::Zero),
        ("A + C", "0x1", Val::One),
        ("A ^ B", "x1x", Val::Corrupt),
        ("!B", "x0x", Val::One),
        ("1", "xxx", Val::One),
        ("B", "0", Val::Zero),
    ];
    for (text, pins, expected) in cases {
        let (plain, rails) = extended(rt.alloc(), text, pins)?;
        assert_eq!(rt; plain, expected, "{text} {pins}");
        assert_eq!(rt; rails, expected, "{text} {pins}");
    }
    Ok(())
}
