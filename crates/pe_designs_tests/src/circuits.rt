//! Netlists of cells: whether they are of the form and fit, and the values of their nets, worked out by hand.

ghost use Rattle.std.specs.Prelude.{IfOk};
ghost use Rattle.std.specs.List.{All};
ghost use Rattle.pe_cells.specs.WellFormed.{IsWellFormed};

use pe_base::{Name, Val};
use pe_cells::{CellView, has_short_functions, view};
use pe_instances::{
    Circuit, Netlist, is_fit, is_net_form, is_wired, make_circuit, nets, read_netlist, settle,
    used_cells,
};
use pe_liberty_read::read_liberty;
use pe_nets::NameIndex;
use pe_text::Lang;
use pe_verilog_ast::Module;
use pe_verilog_read::read_verilog;
use sqlite_items::Items;
use std::alloc::Global;
use std::test::Fail;

/// A nand that says where it has no power, an inverter by its primary pins, a buffer on the ground alone with a well, and a
/// flip-flop.
static LIBRARY: &str = "library (l) {
cell (NAND2) { pg_pin (VDD) { pg_type : primary_power; } pg_pin (VSS) { pg_type : primary_ground; }
pin (A B) { direction : input; } pin (Y) { direction : output; function : \"!(A & B)\"; power_down_function : \"!VDD + VSS\"; } }
cell (INV) { pg_pin (VDD) { pg_type : primary_power; } pg_pin (VSS) { pg_type : primary_ground; }
pin (A) { direction : input; } pin (Y) { direction : output; function : \"!A\"; } }
cell (BUF) { pg_pin (VDD) { pg_type : primary_power; } pg_pin (VSS) { pg_type : primary_ground; } pg_pin (W) { pg_type : pwell; }
pin (A) { direction : input; } pin (Y Z) { direction : output; function : \"A\"; related_ground_pin : VSS; } }
cell (DFF) { ff (IQ, IQN) { next_state : \"A\"; clocked_on : \"C\"; }
pin (A C) { direction : input; } pin (Y) { direction : output; function : \"IQ\"; } }
}";

/// The RTL that netlists are read against.
static RTL: &str =
    "module top(input a, input b, output y, output z); assign y = a & b; assign z = a; endmodule";

fn read_net(alloc: Global, text: &str) -> Result<Option<Netlist>, Fail> {
    let source = read_verilog(alloc, Lang::Netlist, text.as_bytes())?;
    Ok(read_netlist(alloc, &source)?)
}

/// The views of cells.
fn views(alloc: Global, cells: &[Name]) -> Result<Items<CellView>, Fail>
    ensures { IfOk result (All IsWellFormed) }
{
    let library = read_liberty(alloc, LIBRARY.as_bytes())?;
    let mut views = Items::new(alloc);
    if !has_short_functions(&library) {
        return Ok(views);
    }
    for cell in cells {
        let made = view(alloc, &library, cell)?;
        views.push(made)?;
    }
    Ok(views)
}

/// The names of the supplies: VDD and VSS are roots, and VSW is neither.
fn supplies(alloc: Global) -> Result<Vec<(Name, u32)>, Fail> {
    let mut names = Vec::new(alloc);
    for (name, number) in [(b"VDD", 0), (b"VSS", 1), (b"VSW", 2)] {
        let name = Name::new(alloc, name.as_slice())?;
        names.push((name, number))?;
    }
    Ok(names)
}

/// Whether a circuit fits the RTL and the supplies, of which the first two are roots.
fn fits(alloc: Global, m: &Module, names: &[(Name, u32)], circuit: &Circuit) -> Result<bool, Fail> {
    let cells = NameIndex::of(alloc, circuit.cells.as_slice())?.ok_or("cells")?;
    Ok(is_fit(alloc, m, names, [0, 1].as_slice(), circuit, &cells)?)
}

/// A netlist's circuit, and whether it fits.
fn read_circuit(alloc: Global, text: &str) -> Result<(Circuit, bool), Fail>
    ensures { IfOk result (λ r. All IsWellFormed r.0.views) }
{
    let rtl = read_verilog(alloc, Lang::Rtl, RTL.as_bytes())?;
    let netlist = read_net(alloc, text)?.ok_or("no netlist")?;
    let names = supplies(alloc)?;
    let cells = used_cells(alloc, &netlist)?;
    let views = views(alloc, cells.as_slice())?;
    match rtl.modules.as_slice() {
        [m] => {
            let circuit = make_circuit(alloc, netlist, m, names.as_slice(), cells, views)?;
            let fits = fits(alloc, m, names.as_slice(), &circuit)?;
            Ok((circuit, fits))
        }
        _ => Err(Fail::from("one module")),
    }
}

/// The values of the nets of a circuit.
fn values(
    alloc: Global,
    circuit: &Circuit,
    states: &[bool],
    inputs: &[bool],
) -> Result<Vec<Val>, Fail>
    requires { All IsWellFormed circuit.now.views }
{
    let names = nets(alloc, &circuit.netlist)?;
    let index = NameIndex::of(alloc, names.as_slice())?.ok_or("nets")?;
    let cells = NameIndex::of(alloc, circuit.cells.as_slice())?.ok_or("cells")?;
    if !is_wired(alloc, circuit, &cells)? {
        return Err(Fail::from("not wired"));
    }
    if inputs.len() != circuit.given.len() {
        return Err(Fail::from("inputs"));
    }
    Ok(settle(alloc, circuit, &index, &cells, states, inputs)?)
}

fn digit(value: Val) -> u8 {
    match value {
        Val::Zero => b'0',
        Val::One => b'1',
        Val::Corrupt => b'x',
    }
}

/// The values of the nets of a netlist, as digits.
fn settled(alloc: Global, text: &str, states: &[bool], inputs: &[bool]) -> Result<Vec<u8>, Fail> {
    let (circuit, _) = read_circuit(alloc, text)?;
    let mut digits = Vec::new(alloc);
    for value in values(alloc, &circuit, states, inputs)?.as_slice() {
        digits.push(digit(*value))?;
    }
    Ok(digits)
}

#[test]
fn which_netlists_are_of_the_form(rt: HostRuntime) -> Result<(), Fail> {
    let alloc = rt.alloc();
    let rows: [(&str, bool); 16] = [
        (
            "module t(input a, output y); INV u(.A(a), .Y(y)); endmodule",
            true,
        ),
        (
            "module t(input a, output y); wire w; INV u(.A(a), .Y(w)), v(.A(w), .Y(y), .Q()); endmodule",
            true,
        ),
        (
            "module t(input a, output y); INV u(), v(.Y(y)); endmodule",
            true,
        ),
        // An output or a wire that no pin is on.
        ("module t(input a, output y); INV u(); endmodule", false),
        (
            "module t(input a, output y); wire w; INV u(.A(a), .Y(y)); endmodule",
            false,
        ),
        // A net that is not declared, or declared twice, and a pin that is connected twice.
        (
            "module t(input a, output y); INV u(.A(b), .Y(y)); endmodule",
            false,
        ),
        (
            "module t(input a, output y); wire a; INV u(.A(a), .Y(y)); endmodule",
            false,
        ),
        (
            "module t(input a, output y); INV u(.A(a), .A(a), .Y(y)); endmodule",
            false,
        ),
        // Bits, numbers, places, parameters, vectors, assignments, ports that are declared below, and two modules.
        (
            "module t(input a, output y); INV u(.A(a[0]), .Y(y)); endmodule",
            false,
        ),
        (
            "module t(input a, output y); INV u(.A(1'b0), .Y(y)); endmodule",
            false,
        ),
        ("module t(input a, output y); INV u(a, y); endmodule", false),
        (
            "module t(input a, output y); INV #(1) u(.A(a), .Y(y)); endmodule",
            false,
        ),
        (
            "module t(input a, output y); wire [1:0] w; INV u(.A(a), .Y(y)); endmodule",
            false,
        ),
        (
            "module t(input a, output y); assign y = a; endmodule",
            false,
        ),
        (
            "module t(a, y); input a; output y; INV u(.A(a), .Y(y)); endmodule",
            false,
        ),
        (
            "module t(input a, output y); INV u(.A(a), .Y(y)); endmodule module s(); endmodule",
            false,
        ),
    ];
    for (text, expected) in rows {
        let source = read_verilog(alloc, Lang::Netlist, text.as_bytes())?;
        assert_eq!(rt; is_net_form(alloc, &source)?, expected, "{}", text);
    }
    Ok(())
}

/// The head of a netlist that has the RTL's ports and those of the roots.
const HEAD: &str = "module top(input a, input VDD, input b, input VSS, output y, output z);";

#[test]
fn which_netlists_fit(rt: HostRuntime) -> Result<(), Fail> {
    let alloc = rt.alloc();
    let rows: [(&str, &str, bool); 13] = [
        (
            HEAD,
            "wire w; NAND2 u(.A(a), .B(b), .Y(w), .VDD(VDD), .VSS(VSS)); INV v(.A(w), .Y(y), .VDD(VDD), .VSS(VSS)); BUF x(.A(a), .Y(z), .VDD(VDD), .VSS(VSS));",
            true,
        ),
        (
            HEAD,
            "BUF u(.A(a), .Y(y), .Z(z), .VDD(VDD), .VSS(VSS), .W(VSS));",
            true,
        ),
        // An instance reads what a later one drives; a net is driven twice, or never, or is an input.
        (
            HEAD,
            "wire w; INV v(.A(w), .Y(y), .VDD(VDD), .VSS(VSS)); BUF u(.A(a), .Y(w), .Z(z), .VDD(VDD), .VSS(VSS));",
            false,
        ),
        (
            HEAD,
            "BUF u(.A(a), .Y(y), .Z(y), .VDD(VDD), .VSS(VSS)); INV v(.A(a), .Y(z), .VDD(VDD), .VSS(VSS));",
            false,
        ),
        (
            HEAD,
            "BUF u(.A(a), .Y(y), .VDD(VDD), .VSS(VSS)); INV v(.A(z), .VDD(VDD), .VSS(VSS));",
            false,
        ),
        (
            HEAD,
            "BUF u(.A(a), .Y(y), .Z(b), .VDD(VDD), .VSS(VSS)); INV v(.A(a), .Y(z), .VDD(VDD), .VSS(VSS));",
            false,
        ),
        // An input that is open, or on the port of a supply; a supply pin that is open, or on a net; a pin that the cell has not.
        (
            HEAD,
            "BUF u(.A(), .Y(y), .Z(z), .VDD(VDD), .VSS(VSS));",
            false,
        ),
        (
            HEAD,
            "BUF u(.A(VDD), .Y(y), .Z(z), .VDD(VDD), .VSS(VSS));",
            false,
        ),
        (HEAD, "BUF u(.A(a), .Y(y), .Z(z), .VDD(VDD));", false),
        (
            HEAD,
            "BUF u(.A(a), .Y(y), .Z(z), .VDD(VDD), .VSS(b));",
            false,
        ),
        (
            HEAD,
            "BUF u(.A(a), .Y(y), .Z(z), .Q(a), .VDD(VDD), .VSS(VSS));",
            false,
        ),
        // A register.
        (
            HEAD,
            "DFF u(.A(a), .C(b), .Y(y)); DFF v(.A(a), .C(b), .Y(z));",
            false,
        ),
        // A port that is missing, or of a supply that is no root.
        (
            "module top(input a, input VSW, input b, input VSS, output y, output z);",
            "BUF u(.A(a), .Y(y), .Z(z), .VDD(VSW), .VSS(VSS));",
            false,
        ),
    ];
    for (head, body, expected) in rows {
        let text = format!(in alloc; "{}{} endmodule", head, body)?;
        let (_, fits) = read_circuit(alloc, text.as_str())?;
        assert_eq!(rt; fits, expected, "{}", text);
    }
    Ok(())
}

#[test]
fn values_of_nets(rt: HostRuntime) -> Result<(), Fail> {
    let alloc = rt.alloc();
    let text = format!(in alloc;
        "{}{}",
        HEAD,
        "wire w; NAND2 u(.A(a), .B(b), .Y(w), .VDD(VDD), .VSS(VSS)); INV v(.A(w), .Y(y), .VDD(VDD), .VSS(VSS)); BUF x(.A(a), .Y(z), .VDD(VDD), .VSS(VSS)); endmodule"
    )?;
    // The nets are a, VDD, b, VSS, y, z and w. A port of a supply has no value.
    let rows: [(&str, [bool; 2], [bool; 2], &[u8]); 7] = [
        ("both on", [true, true], [false, false], b"0x0x001"),
        ("both on", [true, true], [true, false], b"1x0x011"),
        ("both on", [true, true], [true, true], b"1x1x110"),
        // The buffer depends on the ground alone, by its related pin.
        ("power off", [false, true], [true, true], b"1x1xx1x"),
        ("power off", [false, true], [false, true], b"0x1xx0x"),
        ("ground off", [true, false], [true, true], b"1x1xxxx"),
        ("both off", [false, false], [false, false], b"0x0xxxx"),
    ];
    for (row, states, inputs, expected) in rows {
        let digits = settled(alloc, text.as_str(), states.as_slice(), inputs.as_slice())?;
        assert_eq!(rt; digits.as_slice(), expected, "{}", row);
    }
    Ok(())
}
