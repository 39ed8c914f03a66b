//! Which texts are read and where others are refused, and some trees: all found by hand.

use pe_text::{Lang, ReadFault, Which};
use pe_verilog_ast::{BinOp, Digit, Dir, Edge, Ex, HeadPort, Item, NetKind, Source, Stmt};
use pe_verilog_read::read_verilog;
use std::alloc::Global;
use std::test::Fail;

/// What a text comes to: it is read, or refused at a byte.
#[derive(Clone, Copy, Debug, PartialEq, Eq)]
enum Outcome {
    Read,
    Memory,
    Syntax(u32),
    LeftOut(u32),
    Nesting(u32),
    Width(u32),
    Other(u32),
}

fn comes_to(alloc: Global, net: bool, text: &[u8]) -> Outcome {
    let answer = if net {
        read_verilog(alloc, Lang::Netlist, text)
    } else {
        read_verilog(alloc, Lang::Rtl, text)
    };
    match answer {
        Ok(_) => Outcome::Read,
        Err(ReadFault::Memory) => Outcome::Memory,
        Err(ReadFault::Syntax { at }) => Outcome::Syntax(at),
        Err(ReadFault::Unsupported { at, .. }) => Outcome::LeftOut(at),
        Err(
            ReadFault::Limit {
                at,
                which: Which::Nesting,
            },
        ) => Outcome::Nesting(at),
        Err(
            ReadFault::Limit {
                at,
                which: Which::Width,
            },
        ) => Outcome::Width(at),
        Err(ReadFault::Limit { at, .. }) => Outcome::Other(at),
    }
}

/// Whether a text is of a netlist, the text, and what it comes to.
static TEXTS: [(bool, &[u8], Outcome); 91] = [
    (false, b"", Outcome::Read),
    (true, b"", Outcome::Read),
    (false, b"module", Outcome::Syntax(6)),
    (false, b"module m; endmodule", Outcome::Read),
    (false, b"module m endmodule", Outcome::Syntax(9)),
    (
        false,
        b"module m(a,b); input a; output b; endmodule",
        Outcome::Read,
    ),
    (
        false,
        b"module m(a, input b); endmodule",
        Outcome::Syntax(12),
    ),
    (
        false,
        b"module m(input a, b, output reg [1:0] c, d); endmodule",
        Outcome::Read,
    ),
    (false, b"module m(); endmodule", Outcome::Read),
    (false, b"module m(,); endmodule", Outcome::Syntax(9)),
    (
        false,
        b"module m; reg r = 1; endmodule",
        Outcome::Syntax(16),
    ),
    (
        false,
        b"module m; wire [1:0] w = 1, v; reg a, b; endmodule",
        Outcome::Read,
    ),
    (
        false,
        b"module m; assign a = b ? c : d ? e : f; endmodule",
        Outcome::Read,
    ),
    (
        false,
        b"module m; assign a = b ? c; endmodule",
        Outcome::Syntax(26),
    ),
    (
        false,
        b"module m; always @* case (a) 1'bz: ; endcase endmodule",
        Outcome::Syntax(29),
    ),
    (
        false,
        b"module m; always @* casez (a) 1'bz, {1'b?, ~1'bZ}: ; b[1'b?]: ; endcase endmodule",
        Outcome::Read,
    ),
    (
        false,
        b"module m; always @* casez (1'bz) 1: ; endcase endmodule",
        Outcome::Syntax(27),
    ),
    (
        false,
        b"module m; always @* casez (a) 1: x = 1'b?; endcase endmodule",
        Outcome::Syntax(37),
    ),
    (
        false,
        b"module m; assign y = 1'bz; endmodule",
        Outcome::Syntax(21),
    ),
    (
        false,
        b"module m; INV u (.A(a & b)); endmodule",
        Outcome::Read,
    ),
    (
        true,
        b"module m; INV u (.A(a & b)); endmodule",
        Outcome::Syntax(22),
    ),
    (false, b"module m; assign y = (a); endmodule", Outcome::Read),
    (
        true,
        b"module m; assign y = (a); endmodule",
        Outcome::Syntax(21),
    ),
    (
        true,
        b"module m; assign y = {a, b[1], c[2:0], {d, 2'b01}}; endmodule",
        Outcome::Read,
    ),
    (
        true,
        b"module m; assign y = {2{a}}; endmodule",
        Outcome::Syntax(23),
    ),
    (
        true,
        b"module m; assign y = a[b]; endmodule",
        Outcome::Syntax(23),
    ),
    (
        true,
        b"module m; assign y = a[{1'b0, 1'b1} + (2 << 1)]; endmodule",
        Outcome::Read,
    ),
    (true, b"module m; assign y[b] = a; endmodule", Outcome::Read),
    (
        true,
        b"module m; wire w = a & b; endmodule",
        Outcome::Syntax(21),
    ),
    (
        true,
        b"module m; INV #(a + b) u (.A(c)); endmodule",
        Outcome::Read,
    ),
    (
        true,
        b"module m; INV #(.W(a + b)) u (c, 1'b1), v (c[0]); endmodule",
        Outcome::Read,
    ),
    (
        true,
        b"module m; always @* ; endmodule",
        Outcome::LeftOut(10),
    ),
    (false, b"module m; inout a; endmodule", Outcome::LeftOut(10)),
    (true, b"module m; inout a; endmodule", Outcome::Read),
    (
        false,
        b"module m; always @(posedge c) if (a) if (b) x <= 1; else x <= 0; endmodule",
        Outcome::Read,
    ),
    (
        false,
        b"module m; always @(posedge c or negedge r) begin : b x <= 1; ; end endmodule",
        Outcome::Read,
    ),
    (
        false,
        b"module m; always @(*) begin end endmodule",
        Outcome::Read,
    ),
    (
        false,
        b"module m; always @(a, b or c) x = a; endmodule",
        Outcome::Read,
    ),
    (
        false,
        b"module m; always @() ; endmodule",
        Outcome::Syntax(19),
    ),
    (
        false,
        b"module m; always @* else ; endmodule",
        Outcome::Syntax(20),
    ),
    (
        false,
        b"module m; always @* begin x = 1 end endmodule",
        Outcome::Syntax(32),
    ),
    (false, b"module m; endmodule endmodule", Outcome::Syntax(20)),
    (
        false,
        b"module \\m+n (a); input a; endmodule",
        Outcome::Read,
    ),
    (false, b"module module; endmodule", Outcome::Syntax(7)),
    (false, b"module \\module ; endmodule", Outcome::Read),
    (
        false,
        b"(* keep *) module m; // c\n /* d */ endmodule",
        Outcome::Read,
    ),
    (
        false,
        b"`timescale 1ns/1ps\nmodule m; endmodule",
        Outcome::Read,
    ),
    (false, b"`define X 1", Outcome::LeftOut(0)),
    (false, b"module m; x u(); endmodule", Outcome::Read),
    (false, b"module m; x u(,); endmodule", Outcome::Syntax(14)),
    (false, b"module m; x u(a,); endmodule", Outcome::Syntax(16)),
    (
        false,
        b"module m; x #() u(); endmodule",
        Outcome::Syntax(14),
    ),
    (
        false,
        b"module m; x u(.a(), .b(c)), v(d); endmodule",
        Outcome::Read,
    ),
    (
        false,
        b"module m; x u(.a(b), c); endmodule",
        Outcome::Syntax(21),
    ),
    (
        false,
        b"module m #(parameter [1:0] W = 2, X = 3)(input [W-1:0] a); endmodule",
        Outcome::Read,
    ),
    (false, b"module m #(); endmodule", Outcome::Syntax(11)),
    (
        true,
        b"module m #(W = 1)(input a); endmodule",
        Outcome::Read,
    ),
    (
        false,
        b"module m; parameter A = 1, B = 2; localparam [3:0] C = A; endmodule",
        Outcome::Read,
    ),
    (
        false,
        b"module m; parameter A; endmodule",
        Outcome::Syntax(21),
    ),
    (false, b"module m; assign a = ", Outcome::Syntax(21)),
    (
        false,
        b"module m; assign a = b +; endmodule",
        Outcome::Syntax(24),
    ),
    (
        false,
        b"module m; assign a = ! & b & & c; endmodule",
        Outcome::Read,
    ),
    (
        false,
        b"module m; assign a = b + + c; endmodule",
        Outcome::Syntax(25),
    ),
    (
        false,
        b"module m; assign {a, b[1:0]} = c, d = e; endmodule",
        Outcome::Read,
    ),
    (
        false,
        b"module m; assign 1 = a; endmodule",
        Outcome::Syntax(17),
    ),
    (
        false,
        b"module m; always @* case (a) endcase endmodule",
        Outcome::Syntax(29),
    ),
    (
        false,
        b"module m; always @* case (a) 1, 2: x = 1; default: ; endcase endmodule",
        Outcome::Read,
    ),
    (
        false,
        b"module m; always @* case (a) default x = 1; endcase endmodule",
        Outcome::Read,
    ),
    (
        false,
        b"module m; assign a = b[1:0:2]; endmodule",
        Outcome::Syntax(26),
    ),
    (
        false,
        b"module m; assign a = {}; endmodule",
        Outcome::Syntax(22),
    ),
    (
        false,
        b"module m; assign a = {2{b}, c}; endmodule",
        Outcome::Syntax(26),
    ),
    (
        false,
        b"module m; assign a = {2{b, c}}; endmodule",
        Outcome::Read,
    ),
    (
        false,
        b"module m; assign a = \"x\"; endmodule",
        Outcome::Syntax(21),
    ),
    (
        false,
        b"module m; integer i; endmodule",
        Outcome::LeftOut(10),
    ),
    (
        false,
        b"module m; assign a = b * c; endmodule",
        Outcome::LeftOut(23),
    ),
    (
        false,
        b"module m; assign a = 8'sd1; endmodule",
        Outcome::LeftOut(21),
    ),
    (
        false,
        b"module top(input a, output y); assign y = (((((((((((((((((((((((((((((((((((((((((((((((((((((((((((((((((",
        Outcome::Nesting(106),
    ),
    (
        false,
        b"module top(input a, output y); assign y = 129'd0; endmodule",
        Outcome::Width(42),
    ),
    (
        false,
        b"module top(input a, output y); assign y = ((((((((((((((((((((((((((((((((((((((((((((((((((((((((((((((((",
        Outcome::Syntax(106),
    ),
    (
        false,
        b"module top(input a, input b, output y); assign y = a & b; endmodule",
        Outcome::Read,
    ),
    (
        true,
        b"module top(input a, input b, output y, input VDD, input VSS); AND2 u1 (.A(a), .B(b), .Y(y), .VDD(VDD), .VSS(VSS)); endmodule",
        Outcome::Read,
    ),
    (
        false,
        b"module leaf(input d, output q); assign q = d; endmodule module top(input a, input b, input d, input slp, output reg y); wire s; leaf u_a (.d(d), .q(s)); always @* if (s) y = a; else y = b; endmodule",
        Outcome::Read,
    ),
    (
        true,
        b"module top(input a, input b, input d, input slp, output y, input VDD, input VSS); wire vs, s, i, p, q; SWH usw (.SLEEP(slp), .VDDG(VDD), .VDDS(vs), .VSS(VSS)); BUF u1 (.A(d), .Y(s), .VDD(vs), .VSS(VSS)); INV u2 (.A(s), .Y(i), .VDD(VDD), .VSS(VSS)); AND2 u3 (.A(a), .B(s), .Y(p), .VDD(VDD), .VSS(VSS)); AND2 u4 (.A(b), .B(i), .Y(q), .VDD(VDD), .VSS(VSS)); OR2 u5 (.A(p), .B(q), .Y(y), .VDD(VDD), .VSS(VSS)); endmodule",
        Outcome::Read,
    ),
    (
        false,
        b"module core(input clk, input rn, input d, output reg q); always @(posedge clk or negedge rn) if (!rn) q <= 0; else q <= d; endmodule module top(input clk, input rn, input d, input save, input rest, input slp, output y); core u_c (.clk(clk), .rn(rn), .d(d), .q(y)); endmodule",
        Outcome::Read,
    ),
    (
        true,
        b"module top(input clk, input rn, input d, input save, input rest, input slp, output y, input VDD, input VSS); wire vs; SWH usw (.SLEEP(slp), .VDDG(VDD), .VDDS(vs), .VSS(VSS)); RDFFR \\u_c/q_reg (.CK(clk), .D(d), .RN(rn), .SAVE(save), .RESTORE(rest), .Q(y), .VDDB(VDD), .VDD(vs), .VSS(VSS)); endmodule",
        Outcome::Read,
    ),
    (
        false,
        b"module top(input clk, input en, input d, output y); reg q; always @(posedge clk) if (en) q <= d; assign y = q; endmodule",
        Outcome::Read,
    ),
    (
        true,
        b"module top(input clk, input en, input d, output y, input VDD, input VSS); wire g, q; ICG u0 (.CK(clk), .E(en), .GCK(g), .VDD(VDD), .VSS(VSS)); DFF q_reg (.CK(g), .D(d), .Q(q), .VDD(VDD), .VSS(VSS)); BUF u1 (.A(q), .Y(y), .VDD(VDD), .VSS(VSS)); endmodule",
        Outcome::Read,
    ),
    (
        false,
        b"module leaf(input d, output q); assign q = d; endmodule module top(input a, input iso, input slp, output y); leaf u_a (.d(a), .q(y)); endmodule",
        Outcome::Read,
    ),
    (
        true,
        b"module top(input a, input iso, input slp, output y, input VDD, input VSS); wire vs, n; SWH usw (.SLEEP(slp), .VDDG(VDD), .VDDS(vs), .VSS(VSS)); BUF u1 (.A(a), .Y(n), .VDD(vs), .VSS(VSS)); ISO u2 (.A(n), .EN(iso), .Y(y), .VDD(VDD), .VSS(VSS)); endmodule",
        Outcome::Read,
    ),
    (
        false,
        b"module leaf(input d, output q); assign q = d; endmodule module top(input clk, input a, input slp, output y); leaf u_a (.d(a), .q(y)); endmodule",
        Outcome::Read,
    ),
    (
        true,
        b"module top(input clk, input a, input slp, output y, input VDD, input VSS); wire vs, e_q; SWH usw (.SLEEP(slp), .VDDG(VDD), .VDDS(vs), .VSS(VSS)); DFF e (.CK(clk), .D(1'b0), .Q(e_q), .VDD(VDD), .VSS(VSS)); XOR2 u1 (.A(a), .B(e_q), .Y(y), .VDD(vs), .VSS(VSS)); endmodule",
        Outcome::Read,
    ),
];

#[test]
fn texts(rt: HostRuntime) -> Result<(), Fail> {
    for (net, text, wanted) in TEXTS {
        assert_eq!(rt; comes_to(rt.alloc(), net, text), wanted, "{text:?}");
    }
    Ok(())
}

/// The value in `assign y = VALUE;` of the first item of the first module.
fn first_value(source: &Source) -> Option<&Ex> {
    match source.modules.as_slice() {
        [module, ..] => match module.items.as_slice() {
            [Item::Assign(all), ..] => match all.as_slice() {
                [(_, value), ..] => Some(value),
                [] => None,
            },
            _ => None,
        },
        [] => None,
    }
}

/// A module that assigns the value.
fn assigned(alloc: Global, value: &[u8]) -> Result<Source, Fail> {
    let mut text = Vec::from_slice(alloc, b"module m; assign y = ")?;
    text.extend_from_slice(value)?;
    text.extend_from_slice(b"; endmodule")?;
    let source = read_verilog(alloc, Lang::Rtl, text.as_slice())?;
    Ok(source)
}

/// The first operator of the outermost level, if the value is a chain.
fn outermost(source: &Source) -> Option<BinOp> {
    match first_value(source) {
        Some(Ex::Chain { more, .. }) => more.get(0).map(|operand| operand.op),
        _ => None,
    }
}

/// Two operators of neighbouring levels: the weaker is the outermost, in either order.
static LEVELS: [(&[u8], BinOp); 20] = [
    (b"a << b + c", BinOp::ShiftLeft),
    (b"a - b >> c", BinOp::ShiftRight),
    (b"a < b << c", BinOp::Less),
    (b"a >> b >= c", BinOp::GreaterEqual),
    (b"a == b < c", BinOp::Equal),
    (b"a <= b != c", BinOp::NotEqual),
    (b"a & b == c", BinOp::And),
    (b"a != b & c", BinOp::And),
    (b"a ^ b & c", BinOp::Xor),
    (b"a & b ~^ c", BinOp::Xnor),
    (b"a | b ^ c", BinOp::Or),
    (b"a ^~ b | c", BinOp::Or),
    (b"a && b | c", BinOp::LogicAnd),
    (b"a | b && c", BinOp::LogicAnd),
    (b"a || b && c", BinOp::LogicOr),
    (b"a && b || c", BinOp::LogicOr),
    (b"a > (b || c)", BinOp::Greater),
    (b"~a + b", BinOp::Add),
    (b"a + ~b - c", BinOp::Add),
    (b"a - b + c", BinOp::Sub),
];

#[test]
fn levels(rt: HostRuntime) -> Result<(), Fail> {
    for (value, wanted) in LEVELS {
        let source = assigned(rt.alloc(), value)?;
        assert_eq!(rt; outermost(&source), Some(wanted), "{value:?}");
    }
    Ok(())
}

/// Numbers and their bits, the highest first, `2` for x and `3` for z and `?`.
static NUMBERS: [(&[u8], &[u8]); 16] = [
    (b"4'b10x1", &[1, 0, 2, 1]),
    (b"4'b1", &[0, 0, 0, 1]),
    (b"4'bx", &[2, 2, 2, 2]),
    (b"4'bx1", &[2, 2, 2, 1]),
    (b"4'b0x", &[0, 0, 0, 2]),
    (b"2'b1101", &[0, 1]),
    (b"6'o1x", &[0, 0, 1, 2, 2, 2]),
    (b"8'hXa", &[2, 2, 2, 2, 1, 0, 1, 0]),
    (b"8'HF_0", &[1, 1, 1, 1, 0, 0, 0, 0]),
    (b"4'd13", &[1, 1, 0, 1]),
    (b"3'D13", &[1, 0, 1]),
    (b"4'd340282366920938463463374607431768211457", &[0, 0, 0, 1]),
    (b"0'b1", &[]),
    (b"1_0'd5", &[0, 0, 0, 0, 0, 0, 0, 1, 0, 1]),
    (
        b"5",
        &[
            0, 0, 0, 0, 0, 0, 0, 0, 0, 0, 0, 0, 0, 0, 0, 0, 0, 0, 0, 0, 0, 0, 0, 0, 0, 0, 0, 0, 0,
            1, 0, 1,
        ],
    ),
    (
        b"'hfX",
        &[
            0, 0, 0, 0, 0, 0, 0, 0, 0, 0, 0, 0, 0, 0, 0, 0, 0, 0, 0, 0, 0, 0, 0, 0, 1, 1, 1, 1, 2,
            2, 2, 2,
        ],
    ),
];

#[test]
fn numbers(rt: HostRuntime) -> Result<(), Fail> {
    for (value, wanted) in NUMBERS {
        let source = assigned(rt.alloc(), value)?;
        let Some(Ex::Number { digits }) = first_value(&source) else {
            return Err("no number".into());
        };
        assert_eq!(rt; digits.len(), wanted.len(), "{value:?}");
        for (digit, number) in digits.as_slice().iter().rev().zip(wanted) {
            let shown: u8 = match digit {
                Digit::Zero => 0,
                Digit::One => 1,
                Digit::X => 2,
                Digit::Skip => 3,
            };
            assert_eq!(rt; shown, *number, "{value:?}");
        }
    }
    Ok(())
}

#[test]
fn a_choice_is_grouped_to_the_right(rt: HostRuntime) -> Result<(), Fail> {
    let source = assigned(rt.alloc(), b"a ? b : c ? d : e")?;
    let Some(Ex::Choose(_, yes, no)) = first_value(&source) else {
        return Err("no choice".into());
    };
    assert!(rt; matches!(yes.get(), Ex::Net { .. }));
    assert!(rt; matches!(no.get(), Ex::Choose(_, _, _)));
    Ok(())
}

#[test]
fn ports_of_a_head(rt: HostRuntime) -> Result<(), Fail> {
    let text = b"module m(input [1:0] a, b, output reg c, \\d+ ); endmodule";
    let source = read_verilog(rt.alloc(), Lang::Rtl, text)?;
    let [module] = source.modules.as_slice() else {
        return Err("one module is wanted".into());
    };
    let [
        HeadPort::Declared(a),
        HeadPort::Declared(b),
        HeadPort::Declared(c),
        HeadPort::Declared(d),
    ] = module.ports.as_slice()
    else {
        return Err("four ports are wanted".into());
    };
    assert!(rt; a.name.is(b"a") && b.name.is(b"b") && c.name.is(b"c") && d.name.is(b"d+"));
    assert!(rt; a.range.is_some() && b.range.is_some() && c.range.is_none());
    assert_eq!(rt; b.dir, Dir::Input);
    assert_eq!(rt; d.dir, Dir::Output);
    assert_eq!(rt; d.kind, Some(NetKind::Reg));
    Ok(())
}

#[test]
fn an_else_is_of_the_nearest_if(rt: HostRuntime) -> Result<(), Fail> {
    let text = b"module m; always @(posedge c) if (a) if (b) x <= 1; else ; endmodule";
    let source = read_verilog(rt.alloc(), Lang::Rtl, text)?;
    let [module] = source.modules.as_slice() else {
        return Err("one module is wanted".into());
    };
    let [
        Item::Always {
            events,
            body: Stmt::If { yes, no: None, .. },
        },
    ] = module.items.as_slice()
    else {
        return Err("an if without else is wanted".into());
    };
    assert_eq!(rt;
        events.get(0).map(|event| event.edge),
        Some(Some(Edge::Rising))
    );
    let Stmt::If {
        no: Some(inner),
        ..
    } = yes.get()
    else {
        return Err("an if with else is wanted".into());
    };
    assert!(rt; matches!(inner.get(), Stmt::Empty));
    Ok(())
}
