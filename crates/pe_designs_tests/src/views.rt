//! Cells with the views that they have, or with their refusals, worked out by hand.
//!
//! A view is written as its signal pins; `;` and its power and ground pins with what they are for; `;ff` with next state, clock,
//! clear, preset and the two values that clear and preset give together; `;keeps` with the save and the restore pin, each with
//! the value at which it does nothing; and `;switch` with the pin that it drives, the pin that it passes on and its function. Behind
//! an output stand `=` and its function, `~` and its power-down function, and behind a pin `<` and its related pins. A pin
//! in a function is `#` and its number.

use pe_base::{Name, Val};
use pe_bool_expr::Expr;
use pe_cells::{
    CellFault, CellRegister, CellView, PgKind, RetentionPin, Signal, control, has_short_functions,
    output, value, view,
};
use pe_liberty_read::read_liberty;
use std::alloc::{AllocError, Global};
use std::test::Fail;

/// What stands in the cell X behind its power pin VDD and its ground pin VSS, and its view.
static CELLS: [(&str, &str); 86] = [
    // cells without signal pins, and what has no effect
    ("", ";VDD:PP VSS:PG"),
    (
        "area : 2; timing () { latch (A, B) { } } test_cell () { latch (A, B) { } }",
        ";VDD:PP VSS:PG",
    ),
    (
        "pin (A) { direction : input; } pin (Y) { direction : output; function : \"A\"; }",
        "A Y=#0;VDD:PP VSS:PG",
    ),
    // what may not stand in a cell or in its pins
    ("latch (IQ, IQN) { }", "CellForm latch"),
    ("latch_bank (IQ, IQN, 2) { }", "CellForm latch_bank"),
    ("ff_bank (IQ, IQN, 2) { }", "CellForm ff_bank"),
    ("statetable (\"A\", \"IQ\") { }", "CellForm statetable"),
    ("bus (B) { }", "CellForm bus"),
    ("bundle (B) { }", "CellForm bundle"),
    ("memory () { }", "CellForm memory"),
    (
        "pin (Y) { direction : output; function : \"1\"; three_state : \"1\"; }",
        "CellForm three_state",
    ),
    (
        "pin (Y) { direction : output; function : \"1\"; state_function : \"1\"; }",
        "CellForm state_function",
    ),
    (
        "clock_gating_integrated_cell : latch_posedge;",
        "CellForm clock_gating_integrated_cell",
    ),
    (
        "pin (A) { direction : input; memory () { } }",
        "CellForm memory",
    ),
    (
        "pg_pin (VDDB) { pg_type : backup_power; three_state : \"1\"; latch (A, B) { } }",
        ";VDD:PP VSS:PG VDDB:BP",
    ),
    (
        "ff (IQ, IQN) { next_state : \"IQN\"; clocked_on : \"IQ\"; three_state : \"1\"; latch (A, B) { } }",
        ";VDD:PP VSS:PG;ff #3 #2 - - xx",
    ),
    (
        "ff (IQ, IQN) { next_state : \"A\"; clocked_on : \"A\"; } ff (JQ, JQN) { }",
        "CellForm ff",
    ),
    // signal pins
    ("pin (A) { direction : inout; }", "CellForm direction"),
    ("pin (A) { direction : internal; }", "CellForm direction"),
    ("pin (A) { direction : up; }", "CellForm direction"),
    ("pin (A) { capacitance : 1; }", "CellForm direction"),
    ("pin (Y) { direction : output; }", "CellForm function"),
    (
        "pin (A) { direction : input; direction : output; }",
        "A;VDD:PP VSS:PG",
    ),
    (
        "pin (A B) { direction : input; } pin (Y Z) { direction : output; function : \"A ^ B\"; }",
        "A B Y=(#0^#1) Z=(#0^#1);VDD:PP VSS:PG",
    ),
    (
        "pin (A) { direction : input; } pin (Y) { direction : output; function : \"A\"; function : \"!A\"; power_down_function : \"!VDD + VSS\"; }",
        "A Y=#0~(!#2+#3);VDD:PP VSS:PG",
    ),
    (
        "pin (A) { direction : input; function : \"+\"; power_down_function : \"+\"; related_power_pin : \"VDD\"; }",
        "A<0,-;VDD:PP VSS:PG",
    ),
    // related pins: one alone, none of the cell, and a well
    (
        "pin (A) { direction : input; } pin (Y) { direction : output; function : \"A\"; related_power_pin : \"VDD\"; }",
        "A Y=#0<0,-;VDD:PP VSS:PG",
    ),
    (
        "pin (A) { direction : input; } pin (Y) { direction : output; function : \"A\"; related_ground_pin : VSS; related_power_pin : VDD; }",
        "A Y=#0<0,1;VDD:PP VSS:PG",
    ),
    (
        "pin (A) { direction : input; } pin (Y) { direction : output; function : \"A\"; related_ground_pin : A; }",
        "CellForm related_ground_pin",
    ),
    (
        "pg_pin (W) { pg_type : nwell; } pin (A) { direction : input; } pin (Y) { direction : output; function : \"A\"; related_power_pin : W; }",
        "CellForm related_power_pin",
    ),
    // power and ground pins
    ("pg_pin (P) { direction : input; }", "CellForm pg_type"),
    ("pg_pin (P) { pg_type : power; }", "CellForm pg_type"),
    (
        "pg_pin (N) { pg_type : nwell; } pg_pin (P) { pg_type : pwell; } pg_pin (DN) { pg_type : deepnwell; } pg_pin (DP) { pg_type : deeppwell; } pin (A) { direction : input; }",
        "A;VDD:PP VSS:PG N:W P:W DN:W DP:W",
    ),
    (
        "pg_pin (P) { pg_type : backup_power; pg_function : \"Q\"; }",
        "CellForm pg_function",
    ),
    // switches
    (
        "switch_cell_type : fine_grain;",
        "CellForm switch_cell_type",
    ),
    (
        "pg_pin (P) { pg_type : internal_power; }",
        "CellForm pg_function",
    ),
    (
        "pg_pin (P) { pg_type : internal_ground; pg_function : VSS; }",
        "CellForm switch_function",
    ),
    (
        "pg_pin (P) { pg_type : internal_power; switch_function : A; } pin (A) { direction : input; }",
        "CellForm pg_function",
    ),
    (
        "pg_pin (W) { pg_type : pwell; } pg_pin (P) { pg_type : internal_power; pg_function : W; switch_function : A; } pin (A) { direction : input; }",
        "CellForm pg_function",
    ),
    (
        "pin (A) { direction : input; } pg_pin (P Q) { pg_type : internal_power; pg_function : VDD; switch_function : \"!A\"; } pg_pin (R) { pg_type : internal_ground; pg_function : VSS; switch_function : \"P\"; }",
        "A;VDD:PP VSS:PG P:IP Q:IP R:IG;switch 2:0 !#0;switch 3:0 !#0;switch 4:1 #3",
    ),
    (
        "pg_pin (P) { pg_type : internal_power; pg_function : VDD; switch_function : \"B\"; }",
        "Expression switch_function",
    ),
    // registers
    (
        "ff (IQ) { next_state : \"A\"; clocked_on : \"A\"; } pin (A) { direction : input; }",
        "CellForm ff",
    ),
    (
        "ff (IQ, IQN) { clocked_on : \"A\"; } pin (A) { direction : input; }",
        "CellForm next_state",
    ),
    (
        "ff (IQ, IQN) { next_state : \"A\"; } pin (A) { direction : input; }",
        "CellForm clocked_on",
    ),
    (
        "ff (IQ, IQN) { next_state : \"A\"; clocked_on : \"A\"; clear_preset_var1 : O; } pin (A) { direction : input; }",
        "CellForm clear_preset_var1",
    ),
    (
        "ff (IQ, IQN) { next_state : \"A\"; clocked_on : \"A\"; clear_preset_var2 : 1; } pin (A) { direction : input; }",
        "CellForm clear_preset_var2",
    ),
    (
        "ff (IQ, IQN) { next_state : \"A * IQN\"; clocked_on : \"!A\"; clear : \"A\"; preset : \"A'\"; clear_preset_var1 : L; clear_preset_var2 : H; } pin (A) { direction : input; }",
        "A;VDD:PP VSS:PG;ff (#0*#4) !#0 #0 !#0 01",
    ),
    (
        "ff (IQ, IQN) { next_state : \"A\"; clocked_on : \"A\"; clear_preset_var1 : X; clear_preset_var2 : N; } pin (A) { direction : input; }",
        "A;VDD:PP VSS:PG;ff #0 #0 - - xx",
    ),
    (
        "ff (IQ, IQN) { next_state : \"A\"; clocked_on : \"A\"; clear_preset_var1 : T; clear_preset_var2 : L; } pin (A) { direction : input; }",
        "A;VDD:PP VSS:PG;ff #0 #0 - - x0",
    ),
    (
        "ff (IQ, IQN, B) { next_state : \"B\"; clocked_on : \"A\"; } pin (A) { direction : input; }",
        "Expression next_state",
    ),
    (
        "ff (IQ, IQN) { next_state : \"A\"; clocked_on : \"C\"; } pin (A) { direction : input; }",
        "Expression clocked_on",
    ),
    (
        "ff (IQ, IQN) { next_state : \"A\"; clocked_on : \"A\"; clear : \"IQ\"; } pin (A) { direction : input; }",
        "Expression clear",
    ),
    (
        "ff (IQ, IQN) { next_state : \"A\"; clocked_on : \"A\"; preset : \"A * IQN\"; } pin (A) { direction : input; }",
        "Expression preset",
    ),
    (
        "ff (A, AN) { next_state : \"AN\"; clocked_on : \"A\"; clear : \"A\"; } pin (A) { direction : input; }",
        "A;VDD:PP VSS:PG;ff #4 #0 #0 - xx",
    ),
    // retention
    (
        "retention_cell : r; pin (A) { direction : input; } ff (IQ, IQN) { next_state : \"A\"; clocked_on : \"A\"; }",
        "A;VDD:PP VSS:PG;ff #0 #0 - - xx;keeps - -",
    ),
    (
        "retention_cell : r; pin (A) { direction : input; } pin (S) { direction : input; retention_pin (save, \"0\"); }",
        "A S;VDD:PP VSS:PG",
    ),
    (
        "pin (A) { direction : input; } ff (IQ, IQN) { next_state : \"A\"; clocked_on : \"A\"; } pin (S) { direction : input; retention_pin (save, \"0\"); }",
        "A S;VDD:PP VSS:PG;ff #0 #0 - - xx",
    ),
    (
        "retention_cell : r; pin (A) { direction : input; } ff (IQ, IQN) { next_state : \"A\"; clocked_on : \"A\"; } pin (S) { direction : input; retention_pin (save, \"0\"); } pin (R) { direction : input; retention_pin (restore, \"1\"); }",
        "A S R;VDD:PP VSS:PG;ff #0 #0 - - xx;keeps 1/0 2/1",
    ),
    (
        "retention_cell : r; ff (IQ, IQN) { next_state : \"A\"; clocked_on : \"A\"; } pin (A) { direction : input; retention_pin (restore, 1); retention_pin (save, 0); }",
        "A;VDD:PP VSS:PG;ff #0 #0 - - xx;keeps 0/0 0/1",
    ),
    (
        "pin (A) { direction : input; retention_pin (save_restore, \"0\"); }",
        "CellForm retention_pin",
    ),
    (
        "pin (A) { direction : input; retention_pin (save, \"x\"); }",
        "CellForm retention_pin",
    ),
    (
        "pin (A) { direction : input; retention_pin (save); }",
        "CellForm retention_pin",
    ),
    (
        "pin (S) { direction : input; retention_pin (save, \"0\"); } pin (R) { direction : input; retention_pin (save, \"0\"); }",
        "CellForm retention_pin",
    ),
    (
        "pin (A) { direction : input; retention_pin (save, \"0\"); retention_pin (save, \"0\"); }",
        "CellForm retention_pin",
    ),
    (
        "pin (A B) { direction : input; retention_pin (restore, \"0\"); }",
        "CellForm retention_pin",
    ),
    // functions
    (
        "pin (Y) { direction : output; function : \"B\"; }",
        "Expression function",
    ),
    (
        "pin (A) { direction : input; } pin (Y) { direction : output; function : \"A +\"; }",
        "Expression function",
    ),
    (
        "pin (A) { direction : input; } pin (Y) { direction : output; power_down_function : \"A)\"; function : \"+\"; }",
        "Expression power_down_function",
    ),
    (
        "pin (A) { direction : input; } pin (Y) { direction : output; function : \"+\"; power_down_function : \"+\"; }",
        "Expression function",
    ),
    (
        "pin (A B C D E F G H I J K) { direction : input; } pin (Y) { direction : output; function : \"A B C D E F G H I J K\"; }",
        "Expression function",
    ),
    (
        "pin (A B C D E F G H I J K) { direction : input; } pin (Y) { direction : output; function : \"(A B C D E) ^ (A K)\"; }",
        "A B C D E F G H I J K Y=(((#0*#1)*(#2*(#3*#4)))^(#0*#10));VDD:PP VSS:PG",
    ),
    (
        "pg_pin (W) { pg_type : nwell; } pin (A) { direction : input; } pin (Y) { direction : output; function : \"A * W\"; }",
        "Expression function",
    ),
    (
        "pg_pin (W) { pg_type : nwell; } pg_pin (W) { pg_type : backup_power; } pin (A) { direction : input; } pin (Y) { direction : output; function : \"A * W\"; }",
        "Expression function",
    ),
    (
        "pg_pin (B) { pg_type : backup_power; } pg_pin (B) { pg_type : nwell; } pin (A) { direction : input; } pin (Y) { direction : output; function : \"A * B\"; related_power_pin : B; }",
        "A Y=(#0*#4)<2,-;VDD:PP VSS:PG B:BP B:W",
    ),
    (
        "pg_pin (A) { pg_type : nwell; } pin (A) { direction : input; } pin (A) { direction : input; } pin (Y) { direction : output; function : \"A * VDD * VSS\"; }",
        "A A Y=(#0*(#3*#4));VDD:PP VSS:PG A:W",
    ),
    // the earliest of several, and form before functions
    (
        "pin (Y) { direction : output; function : \"+\"; } ff (IQ, IQN) { next_state : \"A\"; clocked_on : \"A\"; } pin (A) { direction : input; }",
        "Expression function",
    ),
    (
        "ff (IQ, IQN) { next_state : \"A\"; clocked_on : \"+\"; } pin (Y) { direction : output; function : \"+\"; } pin (A) { direction : input; }",
        "Expression clocked_on",
    ),
    (
        "pg_pin (P) { pg_type : internal_power; pg_function : VDD; switch_function : \"+\"; } ff (IQ, IQN) { clocked_on : \"-\"; next_state : \"+\"; }",
        "Expression switch_function",
    ),
    (
        "ff (IQ, IQN) { clocked_on : \"-\"; next_state : \"+\"; }",
        "Expression clocked_on",
    ),
    (
        "pin (Y) { direction : output; function : \"+\"; } pin (Z) { direction : inout; }",
        "CellForm direction",
    ),
    (
        "pin (Z) { direction : inout; } bus (B) { } switch_cell_type : fine_grain;",
        "CellForm direction",
    ),
    (
        "bus (B) { } pin (Z) { direction : inout; } switch_cell_type : fine_grain;",
        "CellForm bus",
    ),
    (
        "switch_cell_type : fine_grain; bus (B) { } pin (Z) { direction : inout; }",
        "CellForm switch_cell_type",
    ),
    (
        "pin (Z) { related_power_pin : Q; direction : inout; }",
        "CellForm related_power_pin",
    ),
    ("pin (Z) { related_power_pin : Q; }", "CellForm direction"),
    (
        "ff (IQ, IQN) { next_state : \"A\"; clocked_on : \"A\"; } ff (IQ, IQN) { next_state : \"A\"; clocked_on : \"A\"; } bus (B) { }",
        "CellForm ff",
    ),
];

/// Libraries, and the view of their cell X.
static LIBRARIES: [(&str, &str); 11] = [
    ("library (l) { }", "NoCell X"),
    ("library (l) { cell (Y) { } celle (X) { } }", "NoCell X"),
    ("library (l) { group () { cell (X) { } } }", "NoCell X"),
    ("library (l) { cell (X) { } }", ";"),
    (
        "library (l) { cell (\"X\") { pin (A) { direction : \"input\"; } } }",
        "A;",
    ),
    (
        "library (l) { cell (X) { pin (A) { direction : input; } } cell (X) { bus (B) { } } }",
        "A;",
    ),
    (
        "library (l) { cell (X) { bus (B) { } } cell (X) { } }",
        "CellForm bus",
    ),
    (
        "library (l) { cell (X) { pin (A) { direction : input; } pin (Y) { direction : output; function : A; } } }",
        "A Y=#0;",
    ),
    (
        "library (l) { cell (X) { pg_pin (B) { pg_type : backup_power; } pin (Y) { direction : output; function : B; } } }",
        "Y=#1;B:BP",
    ),
    (
        "library (l) { cell (X) { pg_pin (W) { pg_type : nwell; } } }",
        ";W:W",
    ),
    (
        "library (l) { cell (X) { pg_pin (W) { pg_type : nwell; } ff (Q, QN) { next_state : \"1\"; clocked_on : \"0\"; } } }",
        ";W:W;ff 1 0 - - xx",
    ),
];

/// The library of a small design.
static LIBRARY: &str = "library (pe) {\n  \
    cell (INV) { pg_pin (VDD) { pg_type : primary_power; } pg_pin (VSS) { pg_type : primary_ground; } pin (A) { direction : input; } pin (Y) { direction : output; function : \"!A\"; power_down_function : \"!VDD + VSS\"; } }\n  \
    cell (BUF) { pg_pin (VDD) { pg_type : primary_power; } pg_pin (VSS) { pg_type : primary_ground; } pin (A) { direction : input; } pin (Y) { direction : output; function : \"A\"; power_down_function : \"!VDD + VSS\"; } }\n  \
    cell (AND2) { pg_pin (VDD) { pg_type : primary_power; } pg_pin (VSS) { pg_type : primary_ground; } pin (A) { direction : input; } pin (B) { direction : input; } pin (Y) { direction : output; function : \"A * B\"; power_down_function : \"!VDD + VSS\"; } }\n  \
    cell (OR2) { pg_pin (VDD) { pg_type : primary_power; } pg_pin (VSS) { pg_type : primary_ground; } pin (A) { direction : input; } pin (B) { direction : input; } pin (Y) { direction : output; function : \"A + B\"; power_down_function : \"!VDD + VSS\"; } }\n  \
    cell (XOR2) { pg_pin (VDD) { pg_type : primary_power; } pg_pin (VSS) { pg_type : primary_ground; } pin (A) { direction : input; } pin (B) { direction : input; } pin (Y) { direction : output; function : \"A ^ B\"; power_down_function : \"!VDD + VSS\"; } }\n  \
    cell (MUX2) { pg_pin (VDD) { pg_type : primary_power; } pg_pin (VSS) { pg_type : primary_ground; } pin (A) { direction : input; } pin (B) { direction : input; } pin (S) { direction : input; } pin (Y) { direction : output; function : \"A * !S + B * S\"; power_down_function : \"!VDD + VSS\"; } }\n  \
    cell (ISO) { pg_pin (VDD) { pg_type : primary_power; } pg_pin (VSS) { pg_type : primary_ground; } pin (A) { direction : input; } pin (EN) { direction : input; } pin (Y) { direction : output; function : \"A * !EN\"; power_down_function : \"!VDD + VSS\"; } }\n  \
    cell (DFF) { pg_pin (VDD) { pg_type : primary_power; } pg_pin (VSS) { pg_type : primary_ground; } ff (IQ, IQN) { next_state : \"D\"; clocked_on : \"CK\"; } pin (CK) { direction : input; } pin (D) { direction : input; } pin (Q) { direction : output; function : \"IQ\"; power_down_function : \"!VDD + VSS\"; } }\n  \
    cell (RDFFR) { retention_cell : ret; pg_pin (VDD) { pg_type : primary_power; } pg_pin (VSS) { pg_type : primary_ground; } pg_pin (VDDB) { pg_type : backup_power; } ff (IQ, IQN) { next_state : \"D\"; clocked_on : \"CK\"; clear : \"!RN\"; } pin (CK) { direction : input; } pin (D) { direction : input; } pin (RN) { direction : input; } pin (SAVE) { direction : input; retention_pin (save, \"0\"); } pin (RESTORE) { direction : input; retention_pin (restore, \"0\"); } pin (Q) { direction : output; function : \"IQ\"; power_down_function : \"!VDD + VSS\"; } }\n  \
    cell (SRDFFR) { retention_cell : ret; pg_pin (VDD) { pg_type : primary_power; } pg_pin (VSS) { pg_type : primary_ground; } pg_pin (VDDB) { pg_type : backup_power; } ff (IQ, IQN) { next_state : \"SE * SI + !SE * D\"; clocked_on : \"CK\"; clear : \"!RN\"; } pin (CK) { direction : input; } pin (D) { direction : input; } pin (SI) { direction : input; } pin (SE) { direction : input; } pin (RN) { direction : input; } pin (SAVE) { direction : input; retention_pin (save, \"0\"); } pin (RESTORE) { direction : input; retention_pin (restore, \"0\"); } pin (Q) { direction : output; function : \"IQ\"; power_down_function : \"!VDD + VSS\"; } }\n  \
    cell (SWH) { switch_cell_type : coarse_grain; pg_pin (VDDG) { pg_type : primary_power; } pg_pin (VSS) { pg_type : primary_ground; } pg_pin (VDDS) { pg_type : internal_power; direction : output; pg_function : \"VDDG\"; switch_function : \"SLEEP\"; } pin (SLEEP) { direction : input; } }\n\
    }\n";

/// The views of its cells.
static NAMED: [(&str, &str); 12] = [
    ("INV", "A Y=!#0~(!#2+#3);VDD:PP VSS:PG"),
    ("BUF", "A Y=#0~(!#2+#3);VDD:PP VSS:PG"),
    ("AND2", "A B Y=(#0*#1)~(!#3+#4);VDD:PP VSS:PG"),
    ("OR2", "A B Y=(#0+#1)~(!#3+#4);VDD:PP VSS:PG"),
    ("XOR2", "A B Y=(#0^#1)~(!#3+#4);VDD:PP VSS:PG"),
    ("MUX2", "A B S Y=((#0*!#2)+(#1*#2))~(!#4+#5);VDD:PP VSS:PG"),
    ("ISO", "A EN Y=(#0*!#1)~(!#3+#4);VDD:PP VSS:PG"),
    ("DFF", "CK D Q=#5~(!#3+#4);VDD:PP VSS:PG;ff #1 #0 - - xx"),
    (
        "RDFFR",
        "CK D RN SAVE RESTORE Q=#9~(!#6+#7);VDD:PP VSS:PG VDDB:BP;ff #1 #0 !#2 - xx;keeps 3/0 4/0",
    ),
    (
        "SRDFFR",
        "CK D SI SE RN SAVE RESTORE Q=#11~(!#8+#9);VDD:PP VSS:PG VDDB:BP;ff ((#3*#2)+(!#3*#1)) #0 !#4 - xx;keeps 5/0 6/0",
    ),
    ("SWH", "SLEEP;VDDG:PP VSS:PG VDDS:IP;switch 2:0 #0"),
    ("AND3", "NoCell AND3"),
];

fn show_bytes(out: &mut String, bytes: &[u8]) -> Result<(), AllocError> {
    for byte in bytes {
        out.push(char::from(*byte))?;
    }
    Ok(())
}

/// The mark between the operands of a tree of two.
fn mark(function: &Expr) -> &'static str {
    match function {
        Expr::And(_, _) => "*",
        Expr::Or(_, _) => "+",
        Expr::Xor(_, _) => "^",
        _ => "",
    }
}

fn show_pin(alloc: Global, out: &mut String, number: u32) -> Result<(), AllocError> {
    let pin = format!(in alloc; "#{number}")?;
    out.push_str(pin.as_str())
}

fn show_function(alloc: Global, out: &mut String, function: &Expr) -> Result<(), AllocError> {
    match function {
        Expr::Const(false) => out.push_str("0"),
        Expr::Const(true) => out.push_str("1"),
        Expr::Pin(number) => show_pin(alloc, out, *number),
        Expr::Not(inner) => {
            out.push_str("!")?;
            show_function(alloc, out, inner.get())
        }
        Expr::And(first, second) | Expr::Or(first, second) | Expr::Xor(first, second) => {
            out.push_str("(")?;
            show_function(alloc, out, first.get())?;
            out.push_str(mark(function))?;
            show_function(alloc, out, second.get())?;
            out.push_str(")")
        }
    }
}

fn show_if(
    alloc: Global,
    out: &mut String,
    mark: &str,
    function: &Option<Expr>,
) -> Result<(), AllocError> {
    match function {
        Some(function) => {
            out.push_str(mark)?;
            show_function(alloc, out, function)
        }
        None => Ok(()),
    }
}

/// Writes a number, and `-` for none.
fn show_number(alloc: Global, out: &mut String, number: Option<u32>) -> Result<(), AllocError> {
    match number {
        Some(number) => {
            let text = format!(in alloc; "{number}")?;
            out.push_str(text.as_str())
        }
        None => out.push_str("-"),
    }
}

fn show_signal(alloc: Global, out: &mut String, pin: &Signal) -> Result<(), AllocError> {
    show_bytes(out, pin.name.bytes())?;
    if pin.output != pin.function.is_some() {
        out.push_str("?")?;
    }
    show_if(alloc, out, "=", &pin.function)?;
    show_if(alloc, out, "~", &pin.down)?;
    if pin.power.is_some() || pin.ground.is_some() {
        out.push_str("<")?;
        show_number(alloc, out, pin.power)?;
        out.push_str(",")?;
        show_number(alloc, out, pin.ground)?;
    }
    Ok(())
}

fn word_of(kind: PgKind) -> &'static str {
    match kind {
        PgKind::PrimaryPower => ":PP",
        PgKind::PrimaryGround => ":PG",
        PgKind::BackupPower => ":BP",
        PgKind::BackupGround => ":BG",
        PgKind::InternalPower => ":IP",
        PgKind::InternalGround => ":IG",
        PgKind::Well => ":W",
    }
}

fn digit(value: Val) -> &'static str {
    match value {
        Val::Zero => "0",
        Val::One => "1",
        Val::Corrupt => "x",
    }
}

fn show_register(
    alloc: Global,
    out: &mut String,
    register: &CellRegister,
) -> Result<(), AllocError> {
    out.push_str(";ff ")?;
    show_function(alloc, out, &register.next)?;
    out.push_str(" ")?;
    show_function(alloc, out, &register.clock)?;
    for control in [&register.clear, &register.preset] {
        out.push_str(" ")?;
        match control {
            Some(function) => show_function(alloc, out, function)?,
            None => out.push_str("-")?,
        }
    }
    out.push_str(" ")?;
    out.push_str(digit(register.both.0))?;
    out.push_str(digit(register.both.1))
}

fn show_control(
    alloc: Global,
    out: &mut String,
    pin: Option<RetentionPin>,
) -> Result<(), AllocError> {
    match pin {
        Some(pin) => {
            show_number(alloc, out, Some(pin.pin))?;
            out.push_str(if pin.disable { "/1" } else { "/0" })?;
            out.push_str(if pin.rising.is_some() { "?" } else { "" })
        }
        None => out.push_str("-"),
    }
}

fn show_pins(alloc: Global, out: &mut String, view: &CellView) -> Result<(), AllocError> {
    let mut gap = "";
    for pin in view.signals.as_slice() {
        out.push_str(gap)?;
        show_signal(alloc, out, pin)?;
        gap = " ";
    }
    gap = ";";
    if view.pgs.is_empty() {
        out.push_str(gap)?;
    }
    for pin in view.pgs.as_slice() {
        out.push_str(gap)?;
        show_bytes(out, pin.name.bytes())?;
        out.push_str(word_of(pin.kind))?;
        gap = " ";
    }
    Ok(())
}

fn show_view(alloc: Global, out: &mut String, view: &CellView) -> Result<(), AllocError> {
    show_pins(alloc, out, view)?;
    if let Some(register) = &view.register {
        show_register(alloc, out, register)?;
    }
    if let Some(retention) = view.retention {
        out.push_str(";keeps ")?;
        show_control(alloc, out, retention.save)?;
        out.push_str(" ")?;
        show_control(alloc, out, retention.restore)?;
    }
    for switch in view.switches.as_slice() {
        out.push_str(";switch ")?;
        show_number(alloc, out, Some(switch.output))?;
        out.push_str(":")?;
        show_number(alloc, out, Some(switch.input))?;
        out.push_str(" ")?;
        show_function(alloc, out, &switch.function)?;
    }
    Ok(())
}

/// Writes a refusal: its kind, the cell's name where it isn't the one that was asked for, and the attribute.
fn show_fault(out: &mut String, asked: &str, fault: &CellFault) -> Result<(), AllocError> {
    let (kind, name, attribute) = match fault {
        CellFault::Memory => ("Memory ", asked.as_bytes(), b"".as_slice()),
        CellFault::NoCell { name } => ("NoCell ", name.bytes(), name.bytes()),
        CellFault::CellForm { name, attribute } => ("CellForm ", name.bytes(), attribute.bytes()),
        CellFault::Expression { name, attribute } => (
            "Expression ",
            name.bytes(),
            attribute.bytes(),
        ),
    };
    out.push_str(kind)?;
    if name != asked.as_bytes() {
        out.push_str("of another cell: ")?;
    }
    show_bytes(out, attribute)
}

/// What is answered of a library's cell, as the rows write it.
fn answered(alloc: Global, text: &str, name: &str) -> Result<String, Fail> {
    let library = read_liberty(alloc, text.as_bytes())?;
    let mut out = String::new(alloc);
    if !has_short_functions(&library) {
        return Ok(out);
    }
    match view(alloc, &library, &Name::new(alloc, name.as_bytes())?) {
        Ok(cell) => show_view(alloc, &mut out, &cell)?,
        Err(fault) => show_fault(&mut out, name, &fault)?,
    }
    Ok(out)
}

#[test]
fn views_and_refusals(rt: HostRuntime) -> Result<(), Fail> {
    for row in &CELLS {
        let text = format!(in rt.alloc();
            "library (l) {{ cell (X) {{ pg_pin (VDD) {{ pg_type : primary_power; }} pg_pin (VSS) {{ pg_type : primary_ground; }} {} }} }}",
            row.0
        )?;
        let line = answered(rt.alloc(), text.as_str(), "X")?;
        assert_eq!(rt; line.as_str(), row.1, "{}", row.0);
    }
    for row in &LIBRARIES {
        let line = answered(rt.alloc(), row.0, "X")?;
        assert_eq!(rt; line.as_str(), row.1, "{}", row.0);
    }
    for row in &NAMED {
        let line = answered(rt.alloc(), LIBRARY, row.0)?;
        assert_eq!(rt; line.as_str(), row.1, "{}", row.0);
    }
    Ok(())
}
