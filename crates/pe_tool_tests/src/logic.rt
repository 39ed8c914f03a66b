//! Designs by hand, of assignments and of supplies: their reports, worked out by hand.

use crate::cases::{Case, DARK_BUT_ON, NEVER, ON, TWO_ROWS, judge};
use std::test::Fail;

const LOGIC: [Case; 7] = [
    Case {
        why: "two assignments by three cells",
        upf: ON,
        rtl: "module top(input a, input b, input c, output y);
  wire w;
  assign w = a & b;
  assign y = w | ~c;
endmodule
",
        net: "module top(input a, input b, input c, output y, input VDD, input VSS, input VAON);
  wire n1;
  wire n2;
  AND2 u1 (.A(a), .B(b), .Y(n1), .VDD(VDD), .VSS(VSS));
  INV u2 (.A(c), .Y(n2), .VDD(VDD), .VSS(VSS));
  OR2 u3 (.A(n1), .B(n2), .Y(y), .VDD(VDD), .VSS(VSS));
endmodule
",
        status: 0,
        report: "powereq: accepted
obligations 1 refuted 1 mismatched 0 spent 0
step start ON live
  cycle 1
    supply VDD on
    supply VSS on
    supply VAON on
    in a 0
    in b 0
    in c 0
",
    },
    Case {
        why: "the inverter is missing: a 0, b 0 and c 0 give 1 in the RTL",
        upf: ON,
        rtl: "module top(input a, input b, input c, output y);
  wire w;
  assign w = a & b;
  assign y = w | ~c;
endmodule
",
        net: "module top(input a, input b, input c, output y, input VDD, input VSS, input VAON);
  wire n1;
  AND2 u1 (.A(a), .B(b), .Y(n1), .VDD(VDD), .VSS(VSS));
  OR2 u3 (.A(n1), .B(c), .Y(y), .VDD(VDD), .VSS(VSS));
endmodule
",
        status: 1,
        report: "powereq: mismatch
obligations 1 refuted 0 mismatched 1 spent 0
mismatch start ON output y
  cycle 1
    supply VDD on
    supply VSS on
    supply VAON on
    in a 0
    in b 0
    in c 0
  rtl 1 net 0
step start ON live
  cycle 1
    supply VDD on
    supply VSS on
    supply VAON on
    in a 0
    in b 0
    in c 0
",
    },
    Case {
        why: "nested parentheses, cell by cell",
        upf: ON,
        rtl: "module top(input a, input b, input c, output y);
  assign y = ~((a | (b & c)) & ~(a & b));
endmodule
",
        net: "module top(input a, input b, input c, output y, input VDD, input VSS, input VAON);
  wire n1;
  wire n2;
  wire n3;
  wire n4;
  wire n5;
  AND2 u1 (.A(b), .B(c), .Y(n1), .VDD(VDD), .VSS(VSS));
  OR2 u2 (.A(a), .B(n1), .Y(n2), .VDD(VDD), .VSS(VSS));
  AND2 u3 (.A(a), .B(b), .Y(n3), .VDD(VDD), .VSS(VSS));
  INV u4 (.A(n3), .Y(n4), .VDD(VDD), .VSS(VSS));
  AND2 u5 (.A(n2), .B(n4), .Y(n5), .VDD(VDD), .VSS(VSS));
  INV u6 (.A(n5), .Y(y), .VDD(VDD), .VSS(VSS));
endmodule
",
        status: 0,
        report: "powereq: accepted
obligations 1 refuted 1 mismatched 0 spent 0
step start ON live
  cycle 1
    supply VDD on
    supply VSS on
    supply VAON on
    in a 0
    in b 0
    in c 0
",
    },
    Case {
        why: "the last inverter is missing: at all 0 the RTL gives 1",
        upf: ON,
        rtl: "module top(input a, input b, input c, output y);
  assign y = ~((a | (b & c)) & ~(a & b));
endmodule
",
        net: "module top(input a, input b, input c, output y, input VDD, input VSS, input VAON);
  wire n1;
  wire n2;
  wire n3;
  wire n4;
  AND2 u1 (.A(b), .B(c), .Y(n1), .VDD(VDD), .VSS(VSS));
  OR2 u2 (.A(a), .B(n1), .Y(n2), .VDD(VDD), .VSS(VSS));
  AND2 u3 (.A(a), .B(b), .Y(n3), .VDD(VDD), .VSS(VSS));
  INV u4 (.A(n3), .Y(n4), .VDD(VDD), .VSS(VSS));
  AND2 u5 (.A(n2), .B(n4), .Y(y), .VDD(VDD), .VSS(VSS));
endmodule
",
        status: 1,
        report: "powereq: mismatch
obligations 1 refuted 0 mismatched 1 spent 0
mismatch start ON output y
  cycle 1
    supply VDD on
    supply VSS on
    supply VAON on
    in a 0
    in b 0
    in c 0
  rtl 1 net 0
step start ON live
  cycle 1
    supply VDD on
    supply VSS on
    supply VAON on
    in a 0
    in b 0
    in c 0
",
    },
    Case {
        why: "two outputs",
        upf: ON,
        rtl: "module top(input a, input b, output y, output z);
  assign y = a & b;
  assign z = a | b;
endmodule
",
        net: "module top(input a, input b, output y, output z, input VDD, input VSS, input VAON);
  AND2 u1 (.A(a), .B(b), .Y(y), .VDD(VDD), .VSS(VSS));
  OR2 u2 (.A(a), .B(b), .Y(z), .VDD(VDD), .VSS(VSS));
endmodule
",
        status: 0,
        report: "powereq: accepted
obligations 2 refuted 2 mismatched 0 spent 0
step start ON live
  cycle 1
    supply VDD on
    supply VSS on
    supply VAON on
    in a 0
    in b 0
",
    },
    Case {
        why: "the second output's cell is on VAON, off in the second row",
        upf: TWO_ROWS,
        rtl: "module top(input a, input b, output y, output z);
  assign y = a & b;
  assign z = a | b;
endmodule
",
        net: "module top(input a, input b, output y, output z, input VDD, input VSS, input VAON);
  AND2 u1 (.A(a), .B(b), .Y(y), .VDD(VDD), .VSS(VSS));
  OR2 u2 (.A(a), .B(b), .Y(z), .VDD(VAON), .VSS(VSS));
endmodule
",
        status: 1,
        report: "powereq: mismatch
obligations 4 refuted 3 mismatched 1 spent 0
mismatch start LOW output z
  cycle 1
    supply VDD on
    supply VSS on
    supply VAON off
    in a 0
    in b 0
  rtl 0 net x
step start ON live
  cycle 1
    supply VDD on
    supply VSS on
    supply VAON on
    in a 0
    in b 0
step start LOW live
  cycle 1
    supply VDD on
    supply VSS on
    supply VAON off
    in a 0
    in b 0
",
    },
    Case {
        why: "all cells on the domain's rails, in both rows",
        upf: TWO_ROWS,
        rtl: "module top(input a, input b, output y, output z);
  assign y = a & b;
  assign z = a | b;
endmodule
",
        net: "module top(input a, input b, output y, output z, input VDD, input VSS, input VAON);
  OR2 u2 (.A(a), .B(b), .Y(z), .VDD(VDD), .VSS(VSS));
  AND2 u1 (.A(a), .B(b), .Y(y), .VDD(VDD), .VSS(VSS));
endmodule
",
        status: 0,
        report: "powereq: accepted
obligations 4 refuted 4 mismatched 0 spent 0
step start ON live
  cycle 1
    supply VDD on
    supply VSS on
    supply VAON on
    in a 0
    in b 0
step start LOW live
  cycle 1
    supply VDD on
    supply VSS on
    supply VAON off
    in a 0
    in b 0
",
    },
];

const POWER: [Case; 5] = [
    Case {
        why: "related pins alone: the cell is down as its power pin is off",
        upf: DARK_BUT_ON,
        rtl: "module top(input a, input b, output y);
  assign y = a | b;
endmodule
",
        net: "module top(input a, input b, output y, input VDD, input VSS, input VAON);
  OR2R u1 (.A(a), .B(b), .Y(y), .VDD(VDD), .VSS(VSS));
endmodule
",
        status: 1,
        report: "powereq: mismatch
obligations 1 refuted 0 mismatched 1 spent 0
mismatch start DARK output y
  cycle 1
    supply VDD off
    supply VSS on
    supply VAON on
    in a 0
    in b 0
  rtl 0 net x
step start DARK live
  cycle 1
    supply VDD off
    supply VSS on
    supply VAON on
    in a 0
    in b 0
",
    },
    Case {
        why: "related pins alone, on a rail that is on",
        upf: DARK_BUT_ON,
        rtl: "module top(input a, input b, output y);
  assign y = a | b;
endmodule
",
        net: "module top(input a, input b, output y, input VDD, input VSS, input VAON);
  OR2R u1 (.A(a), .B(b), .Y(y), .VDD(VAON), .VSS(VSS));
endmodule
",
        status: 0,
        report: "powereq: accepted
obligations 1 refuted 1 mismatched 0 spent 0
step start DARK live
  cycle 1
    supply VDD off
    supply VSS on
    supply VAON on
    in a 0
    in b 0
",
    },
    Case {
        why: "a cell that is down by its power alone: its ground is off in the second row",
        upf: TWO_ROWS,
        rtl: "module top(input a, output y);
  assign y = ~a;
endmodule
",
        net: "module top(input a, output y, input VDD, input VSS, input VAON);
  INVP u1 (.A(a), .Y(y), .VDD(VDD), .VSS(VAON));
endmodule
",
        status: 0,
        report: "powereq: accepted
obligations 2 refuted 2 mismatched 0 spent 0
step start ON live
  cycle 1
    supply VDD on
    supply VSS on
    supply VAON on
    in a 0
step start LOW live
  cycle 1
    supply VDD on
    supply VSS on
    supply VAON off
    in a 0
",
    },
    Case {
        why: "a cell that is down by its ground too",
        upf: TWO_ROWS,
        rtl: "module top(input a, output y);
  assign y = ~a;
endmodule
",
        net: "module top(input a, output y, input VDD, input VSS, input VAON);
  INV u1 (.A(a), .Y(y), .VDD(VDD), .VSS(VAON));
endmodule
",
        status: 1,
        report: "powereq: mismatch
obligations 2 refuted 1 mismatched 1 spent 0
mismatch start LOW output y
  cycle 1
    supply VDD on
    supply VSS on
    supply VAON off
    in a 0
  rtl 1 net x
step start ON live
  cycle 1
    supply VDD on
    supply VSS on
    supply VAON on
    in a 0
step start LOW live
  cycle 1
    supply VDD on
    supply VSS on
    supply VAON off
    in a 0
",
    },
    Case {
        why: "a row that no state meets: nothing is compared in it",
        upf: NEVER,
        rtl: "module top(input a, input b, output y);
  assign y = a | b;
endmodule
",
        net: "module top(input a, input b, output y, input VDD, input VSS, input VAON);
  AND2 u1 (.A(a), .B(b), .Y(y), .VDD(VDD), .VSS(VSS));
endmodule
",
        status: 0,
        report: "powereq: accepted
obligations 1 refuted 1 mismatched 0 spent 0
step start NEVER empty
",
    },
];

#[test]
fn judges_logic(rt: HostRuntime) -> Result<(), Fail> {
    judge(&rt, rt.alloc(), &LOGIC)
}

#[test]
fn judges_power(rt: HostRuntime) -> Result<(), Fail> {
    judge(&rt, rt.alloc(), &POWER)
}
