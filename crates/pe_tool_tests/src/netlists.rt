//! Designs by hand, of cells and of how they are wired: their reports, worked out by hand.

use crate::cases::{Case, ON, TWO_ROWS, judge};
use std::test::Fail;

const CELLS: [Case; 7] = [
    Case {
        why: "exclusive or by one cell",
        upf: ON,
        rtl: "module top(input a, input b, output y);
  assign y = (a & ~b) | (~a & b);
endmodule
",
        net: "module top(input a, input b, output y, input VDD, input VSS, input VAON);
  XOR2 u1 (.A(a), .B(b), .Y(y), .VDD(VDD), .VSS(VSS));
endmodule
",
        status: 0,
        report: "powereq: accepted
obligations 1 refuted 1 mismatched 0 spent 0
step start ON live
  cycle 1
    supply VDD on
    supply VSS on
    supply VAON on
    in a 0
    in b 0
",
    },
    Case {
        why: "exclusive or for or: they differ where both are 1",
        upf: ON,
        rtl: "module top(input a, input b, output y);
  assign y = a | b;
endmodule
",
        net: "module top(input a, input b, output y, input VDD, input VSS, input VAON);
  XOR2 u1 (.A(a), .B(b), .Y(y), .VDD(VDD), .VSS(VSS));
endmodule
",
        status: 1,
        report: "powereq: mismatch
obligations 1 refuted 0 mismatched 1 spent 0
mismatch start ON output y
  cycle 1
    supply VDD on
    supply VSS on
    supply VAON on
    in a 1
    in b 1
  rtl 1 net 0
step start ON live
  cycle 1
    supply VDD on
    supply VSS on
    supply VAON on
    in a 0
    in b 0
",
    },
    Case {
        why: "a multiplexer",
        upf: ON,
        rtl: "module top(input a, input b, input s, output y);
  assign y = (a & ~s) | (b & s);
endmodule
",
        net: "module top(input a, input b, input s, output y, input VDD, input VSS, input VAON);
  MUX2 u1 (.A(a), .B(b), .S(s), .Y(y), .VDD(VDD), .VSS(VSS));
endmodule
",
        status: 0,
        report: "powereq: accepted
obligations 1 refuted 1 mismatched 0 spent 0
step start ON live
  cycle 1
    supply VDD on
    supply VSS on
    supply VAON on
    in a 0
    in b 0
    in s 0
",
    },
    Case {
        why: "a multiplexer with its data swapped: at s 0 it gives b",
        upf: ON,
        rtl: "module top(input a, input b, input s, output y);
  assign y = (a & ~s) | (b & s);
endmodule
",
        net: "module top(input a, input b, input s, output y, input VDD, input VSS, input VAON);
  MUX2 u1 (.A(b), .B(a), .S(s), .Y(y), .VDD(VDD), .VSS(VSS));
endmodule
",
        status: 1,
        report: "powereq: mismatch
obligations 1 refuted 0 mismatched 1 spent 0
mismatch start ON output y
  cycle 1
    supply VDD on
    supply VSS on
    supply VAON on
    in a 0
    in b 1
    in s 0
  rtl 0 net 1
step start ON live
  cycle 1
    supply VDD on
    supply VSS on
    supply VAON on
    in a 0
    in b 0
    in s 0
",
    },
    Case {
        why: "a half adder",
        upf: ON,
        rtl: "module top(input a, input b, output y, output z);
  assign y = (a | b) & ~(a & b);
  assign z = a & b;
endmodule
",
        net: "module top(input a, input b, output y, output z, input VDD, input VSS, input VAON);
  HA u1 (.A(a), .B(b), .S(y), .C(z), .VDD(VDD), .VSS(VSS));
endmodule
",
        status: 0,
        report: "powereq: accepted
obligations 2 refuted 2 mismatched 0 spent 0
step start ON live
  cycle 1
    supply VDD on
    supply VSS on
    supply VAON on
    in a 0
    in b 0
",
    },
    Case {
        why: "its outputs are swapped: at a 0 and b 1 the sum is 1 and the carry 0",
        upf: ON,
        rtl: "module top(input a, input b, output y, output z);
  assign y = (a | b) & ~(a & b);
  assign z = a & b;
endmodule
",
        net: "module top(input a, input b, output y, output z, input VDD, input VSS, input VAON);
  HA u1 (.A(a), .B(b), .S(z), .C(y), .VDD(VDD), .VSS(VSS));
endmodule
",
        status: 1,
        report: "powereq: mismatch
obligations 2 refuted 0 mismatched 2 spent 0
mismatch start ON output y
  cycle 1
    supply VDD on
    supply VSS on
    supply VAON on
    in a 0
    in b 1
  rtl 1 net 0
mismatch start ON output z
  cycle 1
    supply VDD on
    supply VSS on
    supply VAON on
    in a 0
    in b 1
  rtl 0 net 1
step start ON live
  cycle 1
    supply VDD on
    supply VSS on
    supply VAON on
    in a 0
    in b 0
",
    },
    Case {
        why: "an output of a cell may be open",
        upf: ON,
        rtl: "module top(input a, input b, output y);
  assign y = (a & ~b) | (~a & b);
endmodule
",
        net: "module top(input a, input b, output y, input VDD, input VSS, input VAON);
  HA u1 (.A(a), .B(b), .S(y), .C(), .VDD(VDD), .VSS(VSS));
endmodule
",
        status: 0,
        report: "powereq: accepted
obligations 1 refuted 1 mismatched 0 spent 0
step start ON live
  cycle 1
    supply VDD on
    supply VSS on
    supply VAON on
    in a 0
    in b 0
",
    },
];

const WIRING: [Case; 4] = [
    Case {
        why: "a well may be open",
        upf: ON,
        rtl: "module top(input a, output y);
  wire w;
  assign w = ~a;
  assign y = ~w;
endmodule
",
        net: "module top(input a, output y, input VDD, input VSS, input VAON);
  BUFW u1 (.A(a), .Y(y), .VDD(VDD), .VSS(VSS));
endmodule
",
        status: 0,
        report: "powereq: accepted
obligations 1 refuted 1 mismatched 0 spent 0
step start ON live
  cycle 1
    supply VDD on
    supply VSS on
    supply VAON on
    in a 0
",
    },
    Case {
        why: "a wire may pass through two cells of which one is on another rail",
        upf: TWO_ROWS,
        rtl: "module top(input a, output y);
  wire w;
  assign w = ~a;
  assign y = ~w;
endmodule
",
        net: "module top(input a, output y, input VDD, input VSS, input VAON);
  wire n;
  INV u1 (.A(a), .Y(n), .VDD(VAON), .VSS(VSS));
  INV u2 (.A(n), .Y(y), .VDD(VDD), .VSS(VSS));
endmodule
",
        status: 1,
        report: "powereq: mismatch
obligations 2 refuted 1 mismatched 1 spent 0
mismatch start LOW output y
  cycle 1
    supply VDD on
    supply VSS on
    supply VAON off
    in a 0
  rtl 0 net x
step start ON live
  cycle 1
    supply VDD on
    supply VSS on
    supply VAON on
    in a 0
step start LOW live
  cycle 1
    supply VDD on
    supply VSS on
    supply VAON off
    in a 0
",
    },
    Case {
        why: "the ports of the netlist stand in another order",
        upf: ON,
        rtl: "module top(input a, input b, output y);
  assign y = (a & ~b) | (~a & b);
endmodule
",
        net: "module top(input VSS, output y, input b, input VAON, input a, input VDD);
  XOR2 u1 (.VDD(VDD), .Y(y), .A(b), .B(a), .VSS(VSS));
endmodule
",
        status: 0,
        report: "powereq: accepted
obligations 1 refuted 1 mismatched 0 spent 0
step start ON live
  cycle 1
    supply VDD on
    supply VSS on
    supply VAON on
    in a 0
    in b 0
",
    },
    Case {
        why: "an AND of which one value is known: a cell that is down is read, and a 0 beside it decides",
        upf: TWO_ROWS,
        rtl: "module top(input a, input b, output y);
  assign y = a & b;
endmodule
",
        net: "module top(input a, input b, output y, input VDD, input VSS, input VAON);
  wire n;
  BUFW u1 (.A(a), .Y(n), .VDD(VAON), .VSS(VSS));
  AND2 u2 (.A(n), .B(b), .Y(y), .VDD(VDD), .VSS(VSS));
endmodule
",
        status: 1,
        report: "powereq: mismatch
obligations 2 refuted 1 mismatched 1 spent 0
mismatch start LOW output y
  cycle 1
    supply VDD on
    supply VSS on
    supply VAON off
    in a 0
    in b 1
  rtl 0 net x
step start ON live
  cycle 1
    supply VDD on
    supply VSS on
    supply VAON on
    in a 0
    in b 0
step start LOW live
  cycle 1
    supply VDD on
    supply VSS on
    supply VAON off
    in a 0
    in b 0
",
    },
];

#[test]
fn judges_cells(rt: HostRuntime) -> Result<(), Fail> {
    judge(&rt, rt.alloc(), &CELLS)
}

#[test]
fn judges_wiring(rt: HostRuntime) -> Result<(), Fail> {
    judge(&rt, rt.alloc(), &WIRING)
}
