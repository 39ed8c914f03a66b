//! Trees of statements, events, items and heads of modules, as they are shown in few words: all found by hand.

use crate::show_module::expect;
use std::alloc::Global;
use std::process::Abort;
use std::test::Fail;

/// A text, and how its tree is shown.
type Row = (&'static str, &'static str);

/// Whether each text between two others is shown behind the head of a module.
fn expect_each(
    rt: &impl Abort,
    alloc: Global,
    net: bool,
    around: (&str, &str),
    rows: &[Row],
) -> Result<(), Fail> {
    let (before, shown) = around;
    for row in rows {
        let text = format!(in alloc; "module m; {before}{} endmodule", row.0)?;
        let wanted = format!(in alloc; "m; {shown}{}", row.1)?;
        expect(rt, alloc, net, text.as_str(), wanted.as_str())?;
    }
    Ok(())
}

/// Statements that hold no others, and blocks.
static SIMPLE: [Row; 15] = [
    (";", ";"),
    ("x = a;", "x = a;"),
    ("x <= a;", "x <= a;"),
    ("x <= a <= b;", "x <= (a <= b);"),
    ("x = a == b;", "x = (a == b);"),
    ("x[a + b] = c;", "x[(a + b)] = c;"),
    ("x[2'd3:1'b0] <= a;", "x[2'b11:1'b0] <= a;"),
    ("{x, y[1'b0]} = a;", "{x, y[1'b0]} = a;"),
    ("{{x, y}, z} <= {a, {b, c}};", "{{x, y}, z} <= {a, {b, c}};"),
    ("begin end", "begin end"),
    ("begin ; end", "begin ; end"),
    ("begin x = a; y = b; end", "begin x = a; y = b; end"),
    ("begin : n x <= a; end", "begin : n x <= a; end"),
    ("begin : n end", "begin : n end"),
    (
        "begin begin x = a; end ; y = b; end",
        "begin begin x = a; end ; y = b; end",
    ),
];

/// Tests. An `else` is of the nearest `if` that has none.
static TESTS: [Row; 10] = [
    ("if (a) x = b;", "(if a x = b;)"),
    ("if (a) x = b; else x = c;", "(if a x = b; else x = c;)"),
    ("if (a) ; else ;", "(if a ; else ;)"),
    ("if ((a) & b) ;", "(if (a & b) ;)"),
    (
        "if (a) if (b) x = c; else x = d; else x = e;",
        "(if a (if b x = c; else x = d;) else x = e;)",
    ),
    (
        "if (a) if (b) if (c) x = d; else x = e; else ;",
        "(if a (if b (if c x = d; else x = e;) else ;))",
    ),
    (
        "if (a) x = b; else if (c) x = d; else x = e;",
        "(if a x = b; else (if c x = d; else x = e;))",
    ),
    (
        "if (a) x = b; else if (c) if (d) ; else x = e;",
        "(if a x = b; else (if c (if d ; else x = e;)))",
    ),
    (
        "if (a) begin if (b) x = c; end else x = d;",
        "(if a begin (if b x = c;) end else x = d;)",
    ),
    (
        "if (a) case (b) c: if (d) ; endcase else x = e;",
        "(if a case b (c: (if d ;)) end else x = e;)",
    ),
];

/// Cases. An arm is shown in parentheses.
static CASES: [Row; 12] = [
    ("case (a) b: x = c; endcase", "case a (b: x = c;) end"),
    ("case (a) default: ; endcase", "case a (default: ;) end"),
    ("case (a) default ; endcase", "case a (default: ;) end"),
    (
        "case (a) b, c: x = d; default: x = e; endcase",
        "case a (b, c: x = d;) (default: x = e;) end",
    ),
    (
        "case (a) default x = b; c: x = d; endcase",
        "case a (default: x = b;) (c: x = d;) end",
    ),
    (
        "case ({a, b}) 2'b01: if (c) x = d; 2'b1x: ; endcase",
        "case {a, b} (2'b1: (if c x = d;)) (2'b1x: ;) end",
    ),
    (
        "case (a) b ? c : d: x = e; endcase",
        "case a ((b ? c : d): x = e;) end",
    ),
    (
        "case (a) b: case (c) d: ; endcase default: ; endcase",
        "case a (b: case c (d: ;) end) (default: ;) end",
    ),
    (
        "casez (a) 2'b1z: x = b; 2'b?1: x = c; endcase",
        "casez a (2'b1z: x = b;) (2'bz1: x = c;) end",
    ),
    (
        "casez (a) 4'bz01?, b + c: begin end default ; endcase",
        "casez a (4'bz01z, (b + c): begin end) (default: ;) end",
    ),
    (
        "casez (a) 1'b?: case (b) c: ; endcase endcase",
        "casez a (1'bz: case b (c: ;) end) end",
    ),
    (
        "case (a) b: casez (c) 1'bz: ; endcase d: ; endcase",
        "case a (b: casez c (1'bz: ;) end) (d: ;) end",
    ),
];

#[test]
fn statements(rt: HostRuntime) -> Result<(), Fail> {
    let around = ("always @* ", "always * ");
    expect_each(&rt, rt.alloc(), false, around, &SIMPLE)?;
    expect_each(&rt, rt.alloc(), false, around, &TESTS)?;
    expect_each(&rt, rt.alloc(), false, around, &CASES)
}

/// Events of a block.
static EVENTS: [Row; 11] = [
    ("@* ;", "* ;"),
    ("@(*) ;", "* ;"),
    ("@ * ;", "* ;"),
    ("@(a) ;", "(a) ;"),
    ("@(a or b or c) ;", "(a, b, c) ;"),
    ("@(a, b, c) ;", "(a, b, c) ;"),
    ("@(posedge c) q <= d;", "(posedge c) q <= d;"),
    ("@ (negedge c) q <= d;", "(negedge c) q <= d;"),
    (
        "@(posedge c, posedge r) begin q <= d; end",
        "(posedge c, posedge r) begin q <= d; end",
    ),
    (
        "@(posedge c or negedge r) if (!r) q <= 1'b0; else q <= d;",
        "(posedge c, negedge r) (if (!r) q <= 1'b0; else q <= d;)",
    ),
    (
        "@(negedge r, a or posedge \\c[0] ) ;",
        "(negedge r, a, posedge c[0]) ;",
    ),
];

#[test]
fn events(rt: HostRuntime) -> Result<(), Fail> {
    expect_each(&rt, rt.alloc(), false, ("always ", "always "), &EVENTS)
}

/// Items of RTL.
static ITEMS: [Row; 20] = [
    ("wire a, b;", "wire a, b"),
    ("wire w = a & b;", "wire w = (a & b)"),
    (
        "wire [2'd3:1'b0] v, w = a, x;",
        "wire [2'b11:1'b0] v, w = a, x",
    ),
    ("reg q;", "reg q"),
    ("reg [W - 1'b1:0] q, r;", "reg [(W - 1'b1):32'b0] q, r"),
    ("parameter W = 2'd2;", "parameter W = 2'b10"),
    (
        "parameter A = 1'b1, B = {A, A};",
        "parameter A = 1'b1, B = {A, A}",
    ),
    (
        "localparam [1'b1:1'b0] A = 2'b01, B = A + 1'b1;",
        "localparam [1'b1:1'b0] A = 2'b1, B = (A + 1'b1)",
    ),
    ("assign y = a;", "assign y = a"),
    (
        "assign {c, s[1'b1:1'b0]} = a + b, z[1'b0] = d;",
        "assign {c, s[1'b1:1'b0]} = (a + b), z[1'b0] = d",
    ),
    ("input a; output b, c;", "input a; output b, c"),
    ("input wire a;", "input wire a"),
    (
        "output reg [1'b1:1'b0] q, r, s;",
        "output reg [1'b1:1'b0] q, r, s",
    ),
    ("output [1'b1:1'b0] y;", "output [1'b1:1'b0] y"),
    ("leaf u ();", "leaf u ()"),
    ("leaf u (a, b + c);", "leaf u (a, (b + c))"),
    (
        "leaf u (.a(x), .b(), .c(y & z));",
        "leaf u (.a(x), .b(), .c((y & z)))",
    ),
    (
        "leaf u (.a(x)), v (y), w ();",
        "leaf u (.a(x)), v (y), w ()",
    ),
    (
        "leaf #(.W(2'd2), .X()) u (.a(x));",
        "leaf #(.W(2'b10), .X()) u (.a(x))",
    ),
    ("leaf #(2'd2, W) u (x);", "leaf #(2'b10, W) u (x)"),
];

#[test]
fn items(rt: HostRuntime) -> Result<(), Fail> {
    expect_each(&rt, rt.alloc(), false, ("", ""), &ITEMS)
}

/// Items of a netlist.
static NET_ITEMS: [Row; 10] = [
    ("INV u1 (.A(a), .Y(n1));", "INV u1 (.A(a), .Y(n1))"),
    (
        "AND2 u1 (.A(a[1'b1]), .B(b), .Y(), .VDD(VDD));",
        "AND2 u1 (.A(a[1'b1]), .B(b), .Y(), .VDD(VDD))",
    ),
    (
        "RDFFR \\u_c/q_reg (.D(\\n[0] ), .Q(q));",
        "RDFFR u_c/q_reg (.D(n[0]), .Q(q))",
    ),
    (
        "DFF a_reg (.D(1'b0), .Q(a)), b_reg (.D(a), .Q());",
        "DFF a_reg (.D(1'b0), .Q(a)), b_reg (.D(a), .Q())",
    ),
    (
        "leaf u (.a({x, y[1'b1], 2'b01}), .b(z[2'd3:1'b0]));",
        "leaf u (.a({x, y[1'b1], 2'b1}), .b(z[2'b11:1'b0]))",
    ),
    ("BUF u (a, 1'b1);", "BUF u (a, 1'b1)"),
    ("FILL u ();", "FILL u ()"),
    ("inout VDD, VSS;", "inout VDD, VSS"),
    (
        "wire [1'b1:1'b0] w = {a, b}, v;",
        "wire [1'b1:1'b0] w = {a, b}, v",
    ),
    (
        "assign {y, z[1'b0]} = {a, {b, 1'b0}}, x = w[1'b1];",
        "assign {y, z[1'b0]} = {a, {b, 1'b0}}, x = w[1'b1]",
    ),
];

#[test]
fn items_of_netlists(rt: HostRuntime) -> Result<(), Fail> {
    expect_each(&rt, rt.alloc(), true, ("", ""), &NET_ITEMS)
}

/// Heads of modules, and texts of more than one module. A name that follows a declaration in a head is declared as it is.
static MODULES: [Row; 16] = [
    ("", ""),
    ("module m; endmodule", "m"),
    ("module m(); endmodule", "m"),
    ("module m(a); input a; endmodule", "m (a); input a"),
    (
        "module m(a, b); input a; output b; reg b; endmodule",
        "m (a, b); input a; output b; reg b",
    ),
    ("module m(input a); endmodule", "m (input a)"),
    (
        "module m(input a, b, output c, d); endmodule",
        "m (input a, input b, output c, output d)",
    ),
    (
        "module m(output reg q, r, input d); endmodule",
        "m (output reg q, output reg r, input d)",
    ),
    (
        "module m(input wire [1'b1:1'b0] a, b, c); endmodule",
        "m (input wire [1'b1:1'b0] a, input wire [1'b1:1'b0] b, input wire [1'b1:1'b0] c)",
    ),
    (
        "module m(input [W:0] a, input b, c, output reg [1'b1:1'b0] q, r, output s); endmodule",
        "m (input [W:32'b0] a, input b, input c, output reg [1'b1:1'b0] q, output reg [1'b1:1'b0] r, output s)",
    ),
    (
        "module m #(parameter W = 2'd2) (a); endmodule",
        "m #(W = 2'b10) (a)",
    ),
    (
        "module m #(parameter [1'b1:1'b0] W = 2'd2, parameter X = W + W); endmodule",
        "m #([1'b1:1'b0] W = 2'b10, X = (W + W))",
    ),
    (
        "module m #(W = 1'b1, [2'd2:1'b0] X = W)(input [W:1'b0] a); endmodule",
        "m #(W = 1'b1, [2'b10:1'b0] X = W) (input [W:1'b0] a)",
    ),
    ("module a; endmodule module b(c); endmodule", "a\nb (c)"),
    (
        "module \\a+b (\\c[0] , \\endmodule ); endmodule",
        "a+b (c[0], endmodule)",
    ),
    (
        "module m(input a, output y); leaf u (.d(a), .q(y)); endmodule module leaf(input d, output q); assign q = d; endmodule",
        "m (input a, output y); leaf u (.d(a), .q(y))\nleaf (input d, output q); assign q = d",
    ),
];

#[test]
fn modules(rt: HostRuntime) -> Result<(), Fail> {
    for row in &MODULES {
        expect(&rt, rt.alloc(), false, row.0, row.1)?;
    }
    expect(
        &rt,
        rt.alloc(),
        true,
        "module m(input [1'b1:1'b0] a, b, inout VDD, VSS, output y); endmodule",
        "m (input [1'b1:1'b0] a, input [1'b1:1'b0] b, inout VDD, inout VSS, output y)",
    )
}
