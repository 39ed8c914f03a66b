//! The cases of a design: what each assignment gives.

ghost use Rattle.std.specs.Prelude.{◌≡◌, ◌≤◌, ◌++◌, ◌+◌, ◌∷◌, [], Bool, true, false, List, IfOk, OnOk, map, length};
ghost use Rattle.pe_assigns.specs.Form.{nets as nets_of};
ghost use Rattle.pe_instances.specs.Form.{nets as net_nets_of};
ghost use Rattle.pe_design.specs.Sound.{IsSound};
ghost use Rattle.pe_questions.specs.declared.cases.Case.{Case};
ghost use Rattle.pe_questions.specs.Assignments.{assignments, width, roots_of, inputs_of, all_assignments};
ghost use Rattle.pe_questions.specs.Cases.{IsCase, AreCases};

use pe_base::{Val, Want};
use pe_design::Design;
use pe_nets::NameIndex;
use sqlite_items::Items;
use std::alloc::Global;

/// An assignment, the states of the supplies under it, and the values of the nets of both sides.
#[derive(Drop)]
pub(crate) struct Case {
    pub bits: Items<bool>,
    pub states: Items<bool>,
    pub rtl: Vec<Val>,
    pub net: Vec<Val>,
}

/// Where the nets of both sides and the used cells stand in their lists.
#[derive(Drop)]
pub(crate) struct Places<'r, 'n, 'c> {
    pub rtl: NameIndex<'r>,
    pub net: NameIndex<'n>,
    pub cells: NameIndex<'c>,
}

// The bits with one more behind them.
fn extended(alloc: Global, bits: &[bool], bit: bool) -> Result<Items<bool>, Want>
    ensures { IfOk result (λ longer. longer ≡ bits.now ++ bit ∷ []) }
{
    let mut longer = Items::from_slice(alloc, bits)?;
    longer.push(bit)?;
    Ok(longer)
}

// The states of the roots of an assignment, and the bits of the inputs.
fn split<'a>(d: &Design, bits: &'a [bool]) -> (&'a [bool], &'a [bool])
    ensures roots { result.0.now ≡ roots_of d.now bits.now }
    ensures inputs { result.1.now ≡ inputs_of d.now bits.now }
{
    bits.split_at(d.supplies.roots.len().min(bits.len()))
}

/// The case of an assignment.
pub(crate) fn case_of(
    alloc: Global,
    d: &Design,
    places: &Places,
    bits: &[bool],
) -> Result<Case, Want>
    requires sound { IsSound d.now }
    requires rtl { places.now.rtl ≡ nets_of d.now.rtl }
    requires net { places.now.net ≡ net_nets_of d.now.circuit.netlist }
    requires cells { places.now.cells ≡ d.now.circuit.cells }
    requires long { length bits.now ≡ width d.now }
    ensures case { IfOk result (IsCase d.now) }
    ensures bits { IfOk result (λ c. c.bits ≡ bits.now) }
{
    let (roots, inputs) = split(d, bits);
    let states = d.supplies.state(alloc, roots, &[])?;
    let on = d.domain_on(states.as_slice());
    let rtl = pe_assigns::settle(alloc, &d.rtl, &places.rtl, on, inputs)?;
    let net = pe_instances::settle(
        alloc,
        &d.circuit,
        &places.net,
        &places.cells,
        states.as_slice(),
        inputs,
    )?;
    Ok(Case {
        bits: Items::from_slice(alloc, bits)?,
        states,
        rtl,
        net,
    })
}

// Adds the cases of the assignments that begin with these bits and have so many behind them.
fn add_cases(
    alloc: Global,
    d: &Design,
    places: &Places,
    bits: &[bool],
    left: usize,
    cases: &mut Items<Case>,
) -> Result<(), Want>
    requires sound { IsSound d.now }
    requires rtl { places.now.rtl ≡ nets_of d.now.rtl }
    requires net { places.now.net ≡ net_nets_of d.now.circuit.netlist }
    requires cells { places.now.cells ≡ d.now.circuit.cells }
    requires long { length bits.now + left ≡ width d.now }
    ensures { (before : List (List Bool)) → AreCases d.now before cases.old → OnOk result (AreCases d.now (before ++ map (λ more. bits.now ++ more) (assignments left)) cases.new) }
{
    if left == 0 {
        cases.push(case_of(alloc, d, places, bits)?)?;
        return Ok(());
    }
    let zero = extended(alloc, bits, false)?;
    add_cases(alloc, d, places, zero.as_slice(), left - 1, cases)?;
    let one = extended(alloc, bits, true)?;
    add_cases(alloc, d, places, one.as_slice(), left - 1, cases)?;
    Ok(())
}

/// The cases of all assignments, in counting order.
pub(crate) fn cases(
    alloc: Global,
    d: &Design,
    places: &Places,
    inputs: usize,
) -> Result<Items<Case>, Want>
    requires sound { IsSound d.now }
    requires rtl { places.now.rtl ≡ nets_of d.now.rtl }
    requires net { places.now.net ≡ net_nets_of d.now.circuit.netlist }
    requires cells { places.now.cells ≡ d.now.circuit.cells }
    requires inputs { length d.now.supplies.roots + inputs ≡ width d.now }
    requires few { width d.now ≤ 16 }
    ensures { IfOk result (AreCases d.now (all_assignments d.now)) }
{
    let mut cases = Items::new(alloc);
    let width = d.supplies.roots.len() + inputs;
    add_cases(alloc, d, places, &[], width, &mut cases)?;
    Ok(cases)
}
