//! Whether the definitions say what is meant: values that were found by hand.

ghost use Rattle.std.specs.Prelude.{◌≤◌, IfOk, length};
ghost use Rattle.pe_bool_expr.specs.Functions.{pins_of, different};

use pe_base::{Name, RegisterInputs, Val};
use pe_bool_expr::{Expr, ExprFault, Style, parse};
use pe_cells::{
    CellSwitch, Pg, PgKind, RetentionPin, Signal, complement, control, has_switch_on, is_powered,
    is_retained, output, pg_value, pin_values, value,
};
use sqlite_items::Items;
use std::alloc::Global;
use std::test::Fail;

/// The greatest text that may be read.
const MOST: usize = 16_777_216;

/// The function over four signal pins, three power and ground pins, and the register's two values.
fn read(alloc: Global, text: &[u8]) -> Result<Expr, ExprFault>
    requires { length text.now ≤ 16777216 }
    ensures { IfOk result (λ e. length (different (pins_of e)) ≤ 10) }
{
    let mut names = Items::new(alloc);
    for name in ["A", "B", "S", "EN", "VDD", "VSS", "VDDB", "IQ", "IQN"] {
        names.push(Name::new(alloc, name.as_bytes())?)?;
    }
    parse(alloc, text, Style::Liberty, names.as_slice())
}

/// The power and ground pins of these types.
fn pgs(alloc: Global, kinds: &[PgKind]) -> Result<Items<Pg>, Fail> {
    let mut pgs = Items::new(alloc);
    for kind in kinds {
        let name = Name::new(alloc, b"P")?;
        pgs.push(Pg { name, kind: *kind })?;
    }
    Ok(pgs)
}

/// An output: its function, the function that turns it off, if there is one, and its related pins.
type Cell<'a> = (&'a str, &'a str, Option<u32>, Option<u32>);

/// The value of an output with A, B, S and EN, the states of VDD, VSS and VDDB, and 1 and 0 as IQ and IQN.
fn out(alloc: Global, cell: Cell, signals: [Val; 4], ons: [bool; 3]) -> Result<Val, Fail> {
    let (function, down, power, ground_pin) = cell;
    if function.len() > MOST || down.len() > MOST {
        return Ok(Val::Corrupt);
    }
    let kinds = [
        PgKind::PrimaryPower,
        PgKind::PrimaryGround,
        PgKind::BackupPower,
    ];
    let pgs = pgs(alloc, kinds.as_slice())?;
    let function = read(alloc, function.as_bytes())?;
    let values = pin_values(
        alloc,
        signals.as_slice(),
        pgs.as_slice(),
        ons.as_slice(),
        Val::One,
        Val::Zero,
    )?;
    let name = Name::new(alloc, b"Y")?;
    let ground = ground_pin;
    let pin = if down.is_empty() {
        Signal {
            name,
            output: true,
            function: Some(function),
            down: None,
            power,
            ground,
        }
    } else {
        let down = read(alloc, down.as_bytes())?;
        Signal {
            name,
            output: true,
            function: Some(function),
            down: Some(down),
            power,
            ground,
        }
    };
    Ok(output(&pin, pgs.as_slice(), values.as_slice(), ons.as_slice()))
}

#[test]
fn outputs(rt: HostRuntime) -> Result<(), Fail> {
    let (o, i, x) = (Val::Zero, Val::One, Val::Corrupt);
    let all = [true, true, true];
    let down = "!VDD + VSS";
    let mux = "A * !S + B * S";
    let cases = [
        // what is on: VDD reads 1 and VSS reads 0
        (("!A", down, None, None), [i, o, o, o], all, o),
        (("!A", down, None, None), [x, o, o, o], all, x),
        (
            ("!A", down, None, None),
            [i, o, o, o],
            [false, true, true],
            x,
        ),
        (
            ("!A", down, None, None),
            [i, o, o, o],
            [true, false, true],
            x,
        ),
        (
            ("!A", down, None, None),
            [i, o, o, o],
            [true, true, false],
            o,
        ),
        // exact where the corrupt pin does not matter
        ((mux, down, None, None), [i, i, x, o], all, i),
        ((mux, down, None, None), [i, o, x, o], all, x),
        (("A * !EN", down, None, None), [x, o, o, i], all, o),
        (("A * !EN", down, None, None), [x, o, o, o], all, x),
        // a corrupt power-down function
        (("A", "B", None, None), [i, x, o, o], all, x),
        (
            ("A", "B", None, None),
            [i, o, o, o],
            [false, false, false],
            i,
        ),
        // without one: all primary pins
        (("A", "", None, None), [i, o, o, o], [true, true, false], i),
        (("A", "", None, None), [i, o, o, o], [false, true, true], x),
        (("A", "", None, None), [i, o, o, o], [true, false, true], x),
        // or the related ones, of which one may stand alone
        (
            ("A", "", Some(2), None),
            [i, o, o, o],
            [false, false, true],
            i,
        ),
        (
            ("A", "", Some(2), None),
            [i, o, o, o],
            [true, true, false],
            x,
        ),
        (
            ("A", "", None, Some(1)),
            [i, o, o, o],
            [false, true, false],
            i,
        ),
        (
            ("A", "", None, Some(1)),
            [i, o, o, o],
            [true, false, true],
            x,
        ),
        (
            ("A", "", Some(2), Some(1)),
            [i, o, o, o],
            [false, true, true],
            i,
        ),
        (
            ("A", "", Some(2), Some(1)),
            [i, o, o, o],
            [true, false, true],
            x,
        ),
        // functions over power and ground pins and over the register
        (
            ("VDDB * VSS", "0", None, None),
            [o, o, o, o],
            [true, false, true],
            i,
        ),
        (
            ("VDDB * VSS", "0", None, None),
            [o, o, o, o],
            [true, true, true],
            o,
        ),
        (
            ("VDDB * VSS", "0", None, None),
            [o, o, o, o],
            [true, false, false],
            o,
        ),
        (("IQ", down, None, None), [o, o, o, o], all, i),
        (("IQN", down, None, None), [o, o, o, o], all, o),
    ];
    for (cell, signals, ons, outcome) in cases {
        assert_eq!(rt;
            out(rt.alloc(), cell, signals, ons)?,
            outcome,
            "{} {}",
            cell.0,
            cell.1
        );
    }
    assert_eq!(rt; value(&None, [].as_slice()), x);
    Ok(())
}

#[test]
fn switches(rt: HostRuntime) -> Result<(), Fail> {
    let (o, i, x) = (Val::Zero, Val::One, Val::Corrupt);
    let function = read(rt.alloc(), b"S")?;
    let switch = CellSwitch {
        output: 1,
        input: 0,
        function,
    };
    for (sleep, on, outcome) in [
        (o, true, true),
        (i, true, false),
        (x, true, false),
        (o, false, false),
    ] {
        let values = [i, i, sleep];
        let ons = [on, true];
        assert_eq!(rt;
            has_switch_on(&switch, values.as_slice(), ons.as_slice()),
            outcome
        );
    }
    Ok(())
}

#[test]
fn powers(rt: HostRuntime) -> Result<(), Fail> {
    let alloc = rt.alloc();
    let (vdd, vss) = (PgKind::PrimaryPower, PgKind::PrimaryGround);
    let (backup, other) = (PgKind::BackupPower, PgKind::BackupGround);
    let cell = pgs(alloc, [vdd, vss, backup, PgKind::Well].as_slice())?;
    for (ons, powered, retained) in [
        ([true, true, true, false], true, true),
        ([true, true, false, true], true, false),
        ([false, true, true, true], false, true),
        ([true, false, true, true], false, false),
    ] {
        assert_eq!(rt; is_powered(cell.as_slice(), ons.as_slice()), powered);
        assert_eq!(rt; is_retained(cell.as_slice(), ons.as_slice()), retained);
    }
    // with a ground of its own, the primary one does not matter
    let cell = pgs(alloc, [vdd, vss, backup, other].as_slice())?;
    assert!(rt; is_retained(cell.as_slice(), [false, false, true, true].as_slice()));
    assert!(rt; !is_retained(cell.as_slice(), [true, true, true, false].as_slice()));
    // without a backup power pin, the ground alone
    let cell = pgs(alloc, [vdd, vss].as_slice())?;
    assert!(rt; is_retained(cell.as_slice(), [false, true].as_slice()));
    assert!(rt; !is_retained(cell.as_slice(), [true, false].as_slice()));
    // without primary pins, always
    let cell = pgs(alloc, [backup].as_slice())?;
    assert!(rt; is_powered(cell.as_slice(), [false].as_slice()));
    assert_eq!(rt; pg_value(PgKind::InternalGround, true), Val::Zero);
    assert_eq!(rt; pg_value(PgKind::InternalPower, true), Val::One);
    Ok(())
}

#[test]
fn complements(rt: HostRuntime) -> Result<(), Fail> {
    let (o, i, x) = (Val::Zero, Val::One, Val::Corrupt);
    // powered, clear, preset, restore, main; the shadow is 0 and the second value corrupt
    for (powered, clear, preset, restore, main, outcome) in [
        (true, o, o, o, i, o),
        (true, o, o, o, o, i),
        (true, o, o, o, x, x),
        (false, o, o, o, i, x),
        (true, i, o, o, i, i),
        (true, o, i, o, o, o),
        (true, i, i, o, o, x),
        (true, o, o, i, i, i),
        (true, x, o, o, o, i),
        (true, x, o, o, i, x),
        (true, o, o, x, o, i),
    ] {
        let inputs = RegisterInputs {
            powered,
            retained: true,
            clear,
            preset,
            restore,
            save: o,
            both: i,
            d: x,
            before: x,
            after: x,
            main,
            shadow: o,
        };
        assert_eq!(rt; complement(inputs, x), outcome);
    }
    Ok(())
}

#[test]
fn controls(rt: HostRuntime) -> Result<(), Fail> {
    let (o, i, x) = (Val::Zero, Val::One, Val::Corrupt);
    for (disable, at, outcome) in [
        (false, i, i),
        (false, o, o),
        (true, i, o),
        (true, o, i),
        (true, x, x),
    ] {
        let pin = RetentionPin {
            pin: 1,
            disable,
            rising: None,
        };
        assert_eq!(rt; control(Some(pin), [x, at].as_slice()), outcome);
    }
    assert_eq!(rt; control(None, [i].as_slice()), o);
    Ok(())
}
