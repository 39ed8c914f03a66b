//! The states of supplies.

ghost use Rattle.std.specs.Prelude.{◌≡◌, ◌+◌, ◌<◌, ◌≤◌, Bool, List, length, IfOk, slice_index, map, take, drop};
ghost use Rattle.pe_supply.specs.Rows.{is_on as is_on_at};
ghost use Rattle.std.specs.List.{All, list_all};
ghost use Rattle.pe_base.specs.declared.value.Val.{Val};
ghost use Rattle.pe_bool_expr.specs.declared.expr.Expr.{Expr};
ghost use Rattle.pe_supply.specs.declared.supplies.Supplies.{Supplies};
ghost use Rattle.pe_supply.specs.States.{is_one as is_one_of, is_zero as is_zero_of, value_of, conducts, conducting, ports_of, state_of, IsSettled};
ghost use Rattle.pe_supply.specs.WellFormed.{IsWellFormed, IsSmall, place};

use crate::supplies::{Supplies, Switch};
use pe_base::{Val, Want};
use pe_bool_expr::{Expr, eval3};
use sqlite_items::Items;
use std::alloc::Global;

/// Whether the function is 1 at the values.
fn is_one(e: &Expr, values: &[Val]) -> bool
    requires { IsSmall e.now }
    ensures { result ≡ is_one_of (value_of e.now values.now) }
{
    match eval3(e, values) {
        Val::One => true,
        Val::Zero | Val::Corrupt => false,
    }
}

/// Whether the function is 0 at the values.
fn is_zero(e: &Expr, values: &[Val]) -> bool
    requires { IsSmall e.now }
    ensures { result ≡ is_zero_of (value_of e.now values.now) }
{
    match eval3(e, values) {
        Val::Zero => true,
        Val::One | Val::Corrupt => false,
    }
}

/// Whether each of the functions is 0 at the values.
fn are_zero(functions: &[Expr], values: &[Val]) -> bool
    requires { All IsSmall functions.now }
    ensures { result ≡ list_all (λ e. is_zero_of (value_of e values.now)) functions.now }
{
    for e in functions {
        if !is_zero(e, values) {
            return false;
        }
    }
    true
}

/// Whether a switch conducts at the values of its control ports. Where a corrupt one makes an expression corrupt it does not.
fn conducts(switch: &Switch, values: &[Val]) -> bool
    requires on { IsSmall switch.now.on }
    requires off { All IsSmall switch.now.off }
    ensures { result ≡ conducts switch.now values.now }
{
    is_one(&switch.on, values) && are_zero(switch.off.as_slice(), values)
}

/// The first of the values.
fn first_of(values: &[Val], count: usize) -> &[Val]
    requires { count ≤ length values.now }
    ensures { result.now ≡ take count values.now }
{
    &values[..count]
}

/// The values behind the first.
fn rest_of(values: &[Val], count: usize) -> &[Val]
    requires { count ≤ length values.now }
    ensures { result.now ≡ drop count values.now }
{
    &values[count..]
}

/// Whether each switch conducts.
fn conducting(alloc: Global, switches: &[Switch], controls: &[Val]) -> Result<Items<bool>, Want>
    requires on { All (λ w. IsSmall w.on) switches.now }
    requires off { All (λ w. All IsSmall w.off) switches.now }
    requires ports { length controls.now ≡ ports_of switches.now }
    ensures { IfOk result (λ flags. flags ≡ conducting switches.now controls.now) }
{
    let mut flags = Items::new(alloc);
    let mut rest = controls;
    for switch in switches {
        let ports = switch.controls.len();
        flags.push(conducts(switch, first_of(rest, ports)))?;
        rest = rest_of(rest, ports);
    }
    Ok(flags)
}

/// The first place of a number, or how many numbers there are.
fn place_among(numbers: &[u32], number: u32) -> usize
    ensures { result ≡ place numbers.now number }
{
    for (i, other) in numbers.iter().enumerate() {
        if *other == number {
            return i;
        }
    }
    numbers.len()
}

/// The first switch that drives a supply, or how many switches there are.
fn switch_of(switches: &[Switch], supply: u32) -> usize
    ensures { result ≡ place (map (λ w. w.output) switches.now) supply }
{
    for (i, switch) in switches.iter().enumerate() {
        if switch.output == supply {
            return i;
        }
    }
    switches.len()
}

impl Supplies {
    /// The state of a supply, found by going from outputs of switches to their inputs over fewer than `left` of them.
    fn state_of(&self, roots: &[bool], conducts: &[bool], left: usize, supply: u32) -> bool
        ensures { result ≡ state_of self.now roots.now conducts.now left supply }
    {
        if left == 0 {
            return false;
        }
        let root = place_among(self.roots.as_slice(), supply);
        if root < self.roots.len() {
            return is_on(roots, root);
        }
        let place = switch_of(self.switches.as_slice(), supply);
        is_on(conducts, place)
            && self.state_of(
                roots,
                conducts,
                left - 1,
                input_of(self.switches.as_slice(), place),
            )
    }

    /// The state of each supply: each root has its given one, and the output of a switch is on exactly where its input is
    /// on, its on expression is 1 and each of its off expressions is 0.
    ///
    /// `controls` has one value for each control port, by switch and then by port.
    pub fn state(
        &self,
        alloc: Global,
        roots: &[bool],
        controls: &[Val],
    ) -> Result<Items<bool>, Want>
        requires well_formed { IsWellFormed self.now }
        requires roots { length roots.now ≡ length self.now.roots }
        requires controls { length controls.now ≡ ports_of self.now.switches }
        ensures { IfOk result (IsSettled self.now roots.now controls.now) }
    {
        let conducts = conducting(alloc, self.switches.as_slice(), controls)?;
        let count = self.roots.len() + self.switches.len();
        let mut states = Items::new(alloc);
        for supply in 0..count as u32 {
            states.push(self.state_of(roots, conducts.as_slice(), count, supply))?;
        }
        Ok(states)
    }
}

/// The state at a place; past the end it is off.
fn is_on(states: &[bool], place: usize) -> bool
    ensures { result ≡ is_on_at states.now place }
{
    match states.get(place) {
        Some(on) => *on,
        None => false,
    }
}

/// The input of a switch; past the end it is 0.
fn input_of(switches: &[Switch], place: usize) -> u32
    ensures { result ≡ slice_index (map (λ w. w.input) switches.now) place }
{
    match switches.get(place) {
        Some(switch) => switch.input,
        None => 0,
    }
}

/// Under given states of the roots and values of the control ports there is one list of states that is settled.
pub fn state_law()
    ensures one { (s : Supplies) (roots : List Bool) (controls : List Val) (x y : List Bool) → IsWellFormed s → IsSettled s roots controls x → IsSettled s roots controls y → x ≡ y }
    ensures exists { (s : Supplies) (roots : List Bool) (controls : List Val) → IsWellFormed s → (x : List Bool) × IsSettled s roots controls x }
{}
