//! Trees of expressions, as they are shown with all their parentheses: all found by hand.

use crate::show_module::expect;
use std::alloc::Global;
use std::process::Abort;
use std::test::Fail;

/// An operator between two operands: how it is written, how it is shown, and its row in the table of precedence of IEEE
/// 1364-2005 (Table 5-4), counted from 1 for the strongest.
type Operator = (&'static str, &'static str, u8);

static OPERATORS: [Operator; 17] = [
    ("+", "+", 4),
    ("-", "-", 4),
    ("<<", "<<", 5),
    (">>", ">>", 5),
    ("<", "<", 6),
    ("<=", "<=", 6),
    (">", ">", 6),
    (">=", ">=", 6),
    ("==", "==", 7),
    ("!=", "!=", 7),
    ("&", "&", 8),
    ("^", "^", 9),
    ("~^", "~^", 9),
    ("^~", "~^", 9),
    ("|", "|", 10),
    ("&&", "&&", 11),
    ("||", "||", 12),
];

/// An operator before an operand: how it is written, and how it is shown. All are of the strongest row.
type Sign = (&'static str, &'static str);

static SIGNS: [Sign; 9] = [
    ("!", "!"),
    ("~", "~"),
    ("&", "&"),
    ("~&", "~&"),
    ("|", "|"),
    ("~|", "~|"),
    ("^", "^"),
    ("~^", "~^"),
    ("^~", "~^"),
];

/// A place where an expression stands, each with rules of its own: the text before and behind it, what is shown before and
/// behind it, and three operands that are shown as they are written.
struct Place {
    net: bool,
    before: &'static str,
    behind: &'static str,
    shown_before: &'static str,
    shown_behind: &'static str,
    a: &'static str,
    b: &'static str,
    c: &'static str,
}

/// A value of RTL.
static VALUE: Place = Place {
    net: false,
    before: "module m; assign y = ",
    behind: "; endmodule",
    shown_before: "m; assign y = ",
    shown_behind: "",
    a: "a",
    b: "b",
    c: "c",
};

/// A label of `casez`, whose numbers may have digits `z` and `?`.
static LABEL: Place = Place {
    net: false,
    before: "module m; always @* casez (s) ",
    behind: ": ; endcase endmodule",
    shown_before: "m; always * casez s (",
    shown_behind: ": ;) end",
    a: "1'bz",
    b: "b",
    c: "2'b1z",
};

/// An index of what a netlist connects, which has no names.
static INDEX: Place = Place {
    net: true,
    before: "module m; INV u (a[",
    behind: "]); endmodule",
    shown_before: "m; INV u (a[",
    shown_behind: "])",
    a: "1'b1",
    b: "2'b10",
    c: "1'b0",
};

/// Whether an expression at a place has the tree that is wanted.
fn expect_at(
    rt: &impl Abort,
    alloc: Global,
    place: &Place,
    value: &str,
    tree: &str,
) -> Result<(), Fail> {
    let text = format!(in alloc; "{}{value}{}", place.before, place.behind)?;
    let wanted = format!(in alloc; "{}{tree}{}", place.shown_before, place.shown_behind)?;
    expect(rt, alloc, place.net, text.as_str(), wanted.as_str())
}

/// Of two operators the first has its operands where it binds as strongly or more.
fn expect_pair(
    rt: &impl Abort,
    alloc: Global,
    place: &Place,
    first: &Operator,
    second: &Operator,
) -> Result<(), Fail> {
    let (a, b, c) = (place.a, place.b, place.c);
    let value = format!(in alloc; "{a} {} {b} {} {c}", first.0, second.0)?;
    let tree = if first.2 <= second.2 {
        format!(in alloc; "(({a} {} {b}) {} {c})", first.1, second.1)?
    } else {
        format!(in alloc; "({a} {} ({b} {} {c}))", first.1, second.1)?
    };
    expect_at(rt, alloc, place, value.as_str(), tree.as_str())
}

fn expect_pairs(rt: &impl Abort, alloc: Global, place: &Place) -> Result<(), Fail> {
    for first in &OPERATORS {
        for second in &OPERATORS {
            expect_pair(rt, alloc, place, first, second)?;
        }
    }
    Ok(())
}

#[test]
fn pairs_of_operators(rt: HostRuntime) -> Result<(), Fail> {
    expect_pairs(&rt, rt.alloc(), &VALUE)
}

#[test]
fn pairs_of_operators_in_labels(rt: HostRuntime) -> Result<(), Fail> {
    expect_pairs(&rt, rt.alloc(), &LABEL)
}

#[test]
fn pairs_of_operators_in_indexes(rt: HostRuntime) -> Result<(), Fail> {
    expect_pairs(&rt, rt.alloc(), &INDEX)
}

/// An operator before an operand is stronger than each between two.
fn expect_sign(
    rt: &impl Abort,
    alloc: Global,
    place: &Place,
    sign: &Sign,
    operator: &Operator,
) -> Result<(), Fail> {
    let (a, b, before, shown) = (place.a, place.b, sign.0, sign.1);
    let value = format!(in alloc; "{before}{a} {} {before} {b}", operator.0)?;
    let tree = format!(in alloc; "(({shown}{a}) {} ({shown}{b}))", operator.1)?;
    expect_at(rt, alloc, place, value.as_str(), tree.as_str())
}

fn expect_signs(rt: &impl Abort, alloc: Global, place: &Place) -> Result<(), Fail> {
    for sign in &SIGNS {
        for operator in &OPERATORS {
            expect_sign(rt, alloc, place, sign, operator)?;
        }
    }
    Ok(())
}

#[test]
fn operators_before_operands(rt: HostRuntime) -> Result<(), Fail> {
    for place in [&VALUE, &LABEL, &INDEX] {
        expect_signs(&rt, rt.alloc(), place)?;
    }
    Ok(())
}

/// A choice is weaker than each operator, in each of its three parts.
fn expect_choice(
    rt: &impl Abort,
    alloc: Global,
    place: &Place,
    operator: &Operator,
) -> Result<(), Fail> {
    let (a, b, c) = (place.a, place.b, place.c);
    let (written, shown) = (operator.0, operator.1);
    let value = format!(in alloc; "{a} {written} {b} ? {c} : {a}")?;
    let tree = format!(in alloc; "(({a} {shown} {b}) ? {c} : {a})")?;
    expect_at(rt, alloc, place, value.as_str(), tree.as_str())?;
    let value = format!(in alloc; "{a} ? {b} {written} {c} : {a}")?;
    let tree = format!(in alloc; "({a} ? ({b} {shown} {c}) : {a})")?;
    expect_at(rt, alloc, place, value.as_str(), tree.as_str())?;
    let value = format!(in alloc; "{a} ? {b} : {c} {written} {a}")?;
    let tree = format!(in alloc; "({a} ? {b} : ({c} {shown} {a}))")?;
    expect_at(rt, alloc, place, value.as_str(), tree.as_str())
}

#[test]
fn choices_of_operators(rt: HostRuntime) -> Result<(), Fail> {
    for place in [&VALUE, &LABEL, &INDEX] {
        for operator in &OPERATORS {
            expect_choice(&rt, rt.alloc(), place, operator)?;
        }
    }
    Ok(())
}

/// Values of RTL, and their trees.
static VALUES: [(&str, &str); 44] = [
    // parentheses
    ("(a)", "a"),
    ("((a))", "a"),
    ("(a + b)", "(a + b)"),
    ("a + (b + c)", "(a + (b + c))"),
    ("(a | b) & c", "((a | b) & c)"),
    ("a - (b - c) - d", "((a - (b - c)) - d)"),
    ("!((a))", "(!a)"),
    ("~(a & b)", "(~(a & b))"),
    // more than two operators
    ("a - b - c + d", "(((a - b) - c) + d)"),
    ("a && b || c && d", "((a && b) || (c && d))"),
    ("a | b & c ^ d", "(a | ((b & c) ^ d))"),
    ("a + b << c < d", "(((a + b) << c) < d)"),
    ("a == b > c << d - e", "(a == (b > (c << (d - e))))"),
    ("a < b == c < d", "((a < b) == (c < d))"),
    // operators before an operand
    ("! ~ a", "(!(~a))"),
    ("~ & a", "(~(&a))"),
    ("~&a", "(~&a)"),
    ("& ~a", "(&(~a))"),
    ("^ ^~ a", "(^(~^a))"),
    ("!a[b]", "(!a[b])"),
    ("|{a, b}", "(|{a, b})"),
    // no white space
    ("a^~b", "(a ~^ b)"),
    ("a^ ~b", "(a ^ (~b))"),
    ("a&~b|~|c", "((a & (~b)) | (~|c))"),
    ("a&&!b||c", "((a && (!b)) || c)"),
    ("a<<b<=c", "((a << b) <= c)"),
    // choices
    ("a ? b ? c : d : e", "(a ? (b ? c : d) : e)"),
    (
        "a ? b : c ? d : e ? f : g",
        "(a ? b : (c ? d : (e ? f : g)))",
    ),
    ("(a ? b : c) ? d : e", "((a ? b : c) ? d : e)"),
    ("~a ? b : c", "((~a) ? b : c)"),
    ("a + (b ? c : d)", "(a + (b ? c : d))"),
    // concatenations and repetitions
    ("{a}", "{a}"),
    ("{{a, b}, c}", "{{a, b}, c}"),
    ("{a + b, ~c, d ? e : f}", "{(a + b), (~c), (d ? e : f)}"),
    ("{3{a}}", "{32'b11{a}}"),
    ("{2'd2{a, b[1'b1]}}", "{2'b10{a, b[1'b1]}}"),
    ("{W + 1'b1{{a, b}}}", "{(W + 1'b1){{a, b}}}"),
    ("{a, {2'd3{b}}} & c", "({a, {2'b11{b}}} & c)"),
    // bits and parts
    ("a[2]", "a[32'b10]"),
    ("a[b[c]] + d", "(a[b[c]] + d)"),
    ("a[W - 1:0]", "a[(W - 32'b1):32'b0]"),
    ("a[b ? c : d]", "a[(b ? c : d)]"),
    ("a[b ? c : d : e]", "a[(b ? c : d):e]"),
    ("\\a[0] [1'b1]", "a[0][1'b1]"),
];

#[test]
fn values(rt: HostRuntime) -> Result<(), Fail> {
    for (value, tree) in VALUES {
        expect_at(&rt, rt.alloc(), &VALUE, value, tree)?;
    }
    Ok(())
}

/// Labels of `casez`, and their trees.
static LABELS: [(&str, &str); 7] = [
    ("4'b?1", "4'bzzz1"),
    ("4'hz ^ 4'h1", "(4'bzzzz ^ 4'b1)"),
    ("{1'bz, ~2'b?}", "{1'bz, (~2'bzz)}"),
    ("{2'd2{1'bZ}}", "{2'b10{1'bz}}"),
    ("a[1'b?]", "a[1'bz]"),
    ("a[2'b1:1'b0]", "a[2'b1:1'b0]"),
    ("(1'bz | a) & b", "((1'bz | a) & b)"),
];

#[test]
fn labels(rt: HostRuntime) -> Result<(), Fail> {
    for (value, tree) in LABELS {
        expect_at(&rt, rt.alloc(), &LABEL, value, tree)?;
    }
    Ok(())
}

/// Indexes of what a netlist connects, and their trees.
static INDEXES: [(&str, &str); 6] = [
    ("3", "32'b11"),
    ("2'd3:1'b0", "2'b11:1'b0"),
    ("4 - 1:(0)", "(32'b100 - 32'b1):32'b0"),
    ("{1'b1, 2'b01}", "{1'b1, 2'b1}"),
    ("{2'd2{1'b1}}", "{2'b10{1'b1}}"),
    (
        "1'b1 ? 1'b0 ? 1 : 2 : 3",
        "(1'b1 ? (1'b0 ? 32'b1 : 32'b10) : 32'b11)",
    ),
];

#[test]
fn indexes(rt: HostRuntime) -> Result<(), Fail> {
    for (value, tree) in INDEXES {
        expect_at(&rt, rt.alloc(), &INDEX, value, tree)?;
    }
    Ok(())
}
