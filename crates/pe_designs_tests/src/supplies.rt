//! Steps, rows and states that were worked out by hand.

ghost use Rattle.std.specs.Prelude.{◌≡◌, [], ◌∷◌, length, map, IfOk};
ghost use Rattle.pe_supply.specs.WellFormed.{IsWellFormed, IsSwitch, IsSmall};
ghost use Rattle.pe_supply.specs.States.{ports_of};
ghost use Rattle.std.specs.List.{All};

use pe_base::{Name, Step, Val, Want};
use pe_bool_expr::{Expr, Style, parse};
use pe_supply::{Level, Row, StepFault, Supplies, Switch, holds, steps};
use sqlite_items::Items;
use std::alloc::Global;
use std::test::Fail;

fn names(alloc: Global, texts: &[&str]) -> Result<Items<Name>, Want> {
    let mut names = Items::new(alloc);
    for text in texts {
        names.push(Name::new(alloc, text.as_bytes())?)?;
    }
    Ok(names)
}

fn pairs(alloc: Global, texts: &[(&str, &str)]) -> Result<Items<(Name, Name)>, Want> {
    let mut pairs = Items::new(alloc);
    for (before, after) in texts {
        let before = Name::new(alloc, before.as_bytes())?;
        let after = Name::new(alloc, after.as_bytes())?;
        pairs.push((before, after))?;
    }
    Ok(pairs)
}

// Rows of these names, over no supplies.
fn rows(alloc: Global, texts: &[&str]) -> Result<Items<Row>, Want> {
    let mut rows = Items::new(alloc);
    for text in texts {
        rows.push(Row {
            name: Name::new(alloc, text.as_bytes())?,
            levels: Items::new(alloc),
        })?;
    }
    Ok(rows)
}

type Case = (
    &'static [&'static str],
    &'static [&'static str],
    &'static [(&'static str, &'static str)],
    &'static [Step],
);

// The names of the rows, of the start rows and of the pairs, and the steps that these permit.
static STEPS: [Case; 4] = [
    (
        &["ON", "SLEEP"],
        &[],
        &[],
        &[
            Step::Start(0),
            Step::Start(1),
            Step::Pair(0, 0),
            Step::Pair(0, 1),
            Step::Pair(1, 0),
            Step::Pair(1, 1),
        ],
    ),
    (
        &["ON", "SLEEP"],
        &["SLEEP"],
        &[("ON", "SLEEP")],
        &[
            Step::Start(1),
            Step::Pair(0, 0),
            Step::Pair(0, 1),
            Step::Pair(1, 1),
        ],
    ),
    (
        &["A", "B", "A"],
        &["A", "A"],
        &[("B", "A")],
        &[
            Step::Start(0),
            Step::Start(2),
            Step::Pair(0, 0),
            Step::Pair(1, 0),
            Step::Pair(1, 1),
            Step::Pair(1, 2),
            Step::Pair(2, 2),
        ],
    ),
    (&[], &[], &[], &[]),
];

#[test]
fn permitted_steps(rt: HostRuntime) -> Result<(), Fail> {
    let alloc = rt.alloc();
    for (row_names, starts, following, want) in &STEPS {
        let rows = rows(alloc, row_names)?;
        let starts = names(alloc, starts)?;
        let pairs = pairs(alloc, following)?;
        let steps = steps(alloc, rows.as_slice(), starts.as_slice(), pairs.as_slice())?;
        assert!(rt; steps.as_slice() == *want);
    }
    Ok(())
}

type Refused = (
    &'static [&'static str],
    &'static [(&'static str, &'static str)],
    &'static str,
);

// With the rows ON and SLEEP: the names of start rows and pairs, and the first that no row has.
static REFUSED: [Refused; 4] = [
    (&["ON", "X", "Z"], &[("Y", "ON")], "X"),
    (&["ON"], &[("ON", "SLEEP"), ("Y", "Z")], "Y"),
    (&[], &[("ON", "Z"), ("Y", "ON")], "Z"),
    (&["on"], &[], "on"),
];

// The name that no row has, if that is the answer.
fn absent(answer: Result<Items<Step>, StepFault>) -> Option<Name> {
    match answer {
        Err(StepFault::NoRow { name }) => Some(name),
        Err(StepFault::Memory) => None,
        Err(StepFault::TooManySteps { count: _count }) => None,
        Ok(_steps) => None,
    }
}

#[test]
fn absent_rows(rt: HostRuntime) -> Result<(), Fail> {
    let alloc = rt.alloc();
    let rows = rows(alloc, &["ON", "SLEEP"])?;
    for (starts, following, want) in &REFUSED {
        let starts = names(alloc, starts)?;
        let pairs = pairs(alloc, following)?;
        let answer = steps(alloc, rows.as_slice(), starts.as_slice(), pairs.as_slice());
        let name = absent(answer).ok_or("no name")?;
        assert!(rt; name.is(want.as_bytes()));
    }
    Ok(())
}

// How many steps so many rows of one name have, where all are permitted; none where they are too many, with their number.
fn count_steps(alloc: Global, count: u32) -> Result<(u32, u32), Want> {
    let mut rows = Items::new(alloc);
    for _ in 0..count {
        rows.push(Row {
            name: Name::new(alloc, b"R")?,
            levels: Items::new(alloc),
        })?;
    }
    match steps(alloc, rows.as_slice(), &[], &[]) {
        Ok(steps) => Ok((steps.len().min(9999) as u32, 0)),
        Err(StepFault::TooManySteps { count }) => Ok((0, count)),
        Err(StepFault::NoRow { .. }) | Err(StepFault::Memory) => Err(Want),
    }
}

#[test]
fn many_steps(rt: HostRuntime) -> Result<(), Fail> {
    let alloc = rt.alloc();
    assert_eq!(rt; count_steps(alloc, 31)?, (992, 0));
    assert_eq!(rt; count_steps(alloc, 32)?, (0, 1056));
    assert_eq!(rt; count_steps(alloc, 65)?, (0, 4290));
    Ok(())
}

type Held = (&'static [Level], &'static [u32], &'static [bool], bool);

// Levels, the supplies of the table, the states of all supplies, and whether the row holds.
static HELD: [Held; 8] = [
    (&[Level::On], &[1], &[false, true], true),
    (&[Level::On], &[0], &[false, true], false),
    (&[Level::Off], &[0], &[false, true], true),
    (&[Level::Off], &[1], &[false, true], false),
    (&[Level::Any], &[0], &[false, true], true),
    (&[Level::Any], &[1], &[false, true], true),
    (
        &[Level::On, Level::Any, Level::Off],
        &[2, 0, 1],
        &[true, false, true],
        true,
    ),
    (
        &[Level::On, Level::Any, Level::Off],
        &[2, 0, 0],
        &[true, false, true],
        false,
    ),
];

#[test]
fn held_rows(rt: HostRuntime) -> Result<(), Fail> {
    let alloc = rt.alloc();
    for (levels, table, states, want) in &HELD {
        let row = Row {
            name: Name::new(alloc, b"R")?,
            levels: Items::from_slice(alloc, levels)?,
        };
        assert!(rt; holds(table, &row, states) == *want);
    }
    Ok(())
}

// One control port.
fn port(alloc: Global, net: &[u8]) -> Result<Items<(Name, Name)>, Want>
    ensures { IfOk result (λ ports. length ports ≡ 1) }
{
    let mut ports = Items::new(alloc);
    ports.push((Name::new(alloc, b"c")?, Name::new(alloc, net)?))?;
    Ok(ports)
}

// A function of control port c.
fn function(alloc: Global, text: &[u8; 2]) -> Result<Expr, Want>
    ensures { IfOk result IsSmall }
{
    let mut names = Items::new(alloc);
    names.push(Name::new(alloc, b"c")?)?;
    match parse(alloc, text, Style::Upf, names.as_slice()) {
        Ok(e) => Ok(e),
        Err(_fault) => Err(Want),
    }
}

// What is listed is small, as it is alone.
fn listed(alloc: Global, e: Expr) -> Result<Items<Expr>, Want>
    requires { IsSmall e }
    ensures { IfOk result (λ es. All IsSmall es) }
{
    let mut off = Items::new(alloc);
    off.push(e)?;
    Ok(off)
}

// A switch with one control port, which conducts where that is 0.
fn switch(alloc: Global, net: &[u8], output: u32, input: u32) -> Result<Switch, Want>
    ensures { IfOk result (λ w. (w.output ≡ output) × (w.input ≡ input) × (length w.controls ≡ 1) × IsSwitch w) }
{
    let controls = port(alloc, net)?;
    let on = function(alloc, b"!c")?;
    let off = function(alloc, b" c")?;
    let off = listed(alloc, off)?;
    Ok(Switch {
        name: Name::new(alloc, net)?,
        output,
        input,
        controls,
        on,
        off,
    })
}

// The names of three supplies.
fn three_names(alloc: Global) -> Result<Items<(Name, u32)>, Want>
    ensures { IfOk result (λ ns. map (λ n. n.1) ns ≡ 0 ∷ 1 ∷ 2 ∷ []) }
{
    let mut names = Items::new(alloc);
    names.push((Name::new(alloc, b"VDD")?, 0))?;
    names.push((Name::new(alloc, b"VA")?, 1))?;
    names.push((Name::new(alloc, b"VB")?, 2))?;
    Ok(names)
}

// Two switches.
fn both(alloc: Global, first: Switch, second: Switch) -> Result<Items<Switch>, Want>
    ensures { IfOk result (λ ws. ws ≡ first ∷ second ∷ []) }
{
    let mut switches = Items::new(alloc);
    switches.push(first)?;
    switches.push(second)?;
    Ok(switches)
}

// A root, a switch from it, and a switch from that one's output.
fn chain(alloc: Global) -> Result<Supplies, Want>
    ensures { IfOk result (λ s. IsWellFormed s × (length s.roots ≡ 1) × (ports_of s.switches ≡ 2)) }
{
    let names = three_names(alloc)?;
    let first = switch(alloc, b"a", 1, 0)?;
    let second = switch(alloc, b"b", 2, 1)?;
    let switches = both(alloc, first, second)?;
    let roots = Items::from_slice(alloc, &[0])?;
    Ok(Supplies {
        names,
        roots,
        switches,
        sets: Items::new(alloc),
        table: Items::new(alloc),
        rows: Items::new(alloc),
    })
}

type Found = (bool, Val, Val, [bool; 3]);

// The state of the root, the values of the two control ports, and the states of the root and of both switched supplies.
static STATES: [Found; 9] = [
    (true, Val::Zero, Val::Zero, [true, true, true]),
    (true, Val::One, Val::Zero, [true, false, false]),
    (true, Val::Zero, Val::One, [true, true, false]),
    (true, Val::One, Val::One, [true, false, false]),
    (true, Val::Corrupt, Val::Zero, [true, false, false]),
    (true, Val::Zero, Val::Corrupt, [true, true, false]),
    (false, Val::Zero, Val::Zero, [false, false, false]),
    (false, Val::One, Val::Corrupt, [false, false, false]),
    (true, Val::Corrupt, Val::Corrupt, [true, false, false]),
];

#[test]
fn states_of_a_chain(rt: HostRuntime) -> Result<(), Fail> {
    let alloc = rt.alloc();
    let supplies = chain(alloc)?;
    for (root, first, second, want) in &STATES {
        let states = supplies.state(alloc, &[*root], &[*first, *second])?;
        assert!(rt; states.as_slice() == want.as_slice());
    }
    Ok(())
}
