//! The exact extension of a boolean function.

ghost use Rattle.std.specs.Prelude.{◌≡◌, ◌≤◌, List, IfOk, OnErr, All, length, take};
ghost use Rattle.pe_base.specs.declared.value.Val.{Val};
ghost use Rattle.pe_base.specs.Values.{exact_extension};
ghost use Rattle.pe_bool_expr.specs.Functions.{holds, pins_of, different, is_among};
ghost use Rattle.pe_graph.specs.Nodes.{Grows};
ghost use Rattle.pe_rail_ops.specs.Rails.{IsRail, GivesRail, rails_in};
ghost use Rattle.pe_rail_ops.specs.Extension.{with_fixed};

use crate::bit::{self, Rail};
use pe_base::{Val, Want};
use pe_bool_expr::{Expr, eval3};
use pe_graph::Graph;
use std::alloc::Global;

/// The exact extension of a function to the values of its pins: 0 or 1 exactly where the function gives that, whatever
/// known bits stand in the place of its corrupt pins, and else corrupt. The rails are those of the pins by their numbers,
/// and a pin past them is 0.
///
/// The function names at most 10 different pins. It is evaluated once for each choice of bits for them; pins that it does
/// not name add no node.
pub fn exact(alloc: Global, graph: &mut Graph, function: &Expr, pins: &[Rail]) -> Result<Rail, Want>
    requires few { length (different (pins_of function.now)) ≤ 10 }
    requires pins_in { All (IsRail graph.old) pins.now }
    ensures gives { IfOk result (GivesRail graph.old graph.new (λ v. exact_extension (holds function.now) (rails_in v graph.old pins.now))) }
    ensures want { OnErr result (Grows graph.old graph.new) }
{
    let mut fixed = Vec::new(alloc);
    let rail = rest(graph, function, pins, &mut fixed)?;
    Ok(rail)
}

// The exact extension at the values that are fixed, and at the rails of the pins behind them.
fn rest(
    graph: &mut Graph,
    function: &Expr,
    pins: &[Rail],
    fixed: &mut Vec<Val>,
) -> Result<Rail, Want>
    requires few { length (different (pins_of function.now)) ≤ 10 }
    requires pins_in { All (IsRail graph.old) pins.now }
    requires fits { length fixed.old.items ≤ length pins.now }
    ensures front { IfOk result (λ _. take (length fixed.old.items) fixed.new.items ≡ fixed.old.items) }
    ensures gives { IfOk result (GivesRail graph.old graph.new (λ v. exact_extension (holds function.now) (with_fixed fixed.old.items (rails_in v graph.old pins.now)))) }
    ensures want { OnErr result (Grows graph.old graph.new) }
{
    pass(function, pins.len(), fixed)?;
    let pin = fixed.len();
    if pin == pins.len() {
        graph.graph_law();
        return Ok(bit::constant(eval3(function, fixed.as_slice())));
    }
    fixed.push(Val::Zero)?;
    let zero = rest(graph, function, pins, fixed)?;
    fixed.truncate(pin);
    fixed.push(Val::One)?;
    let one = rest(graph, function, pins, fixed)?;
    let rail = bit::pick(graph, &pins[pin], &zero, &one)?;
    Ok(rail)
}

// Fixes pins that the function does not name, at 0, up to one that it names.
fn pass(function: &Expr, count: usize, fixed: &mut Vec<Val>) -> Result<(), Want>
    requires { length fixed.old.items ≤ count }
    ensures fits { length fixed.new.items ≤ count }
    ensures front { take (length fixed.old.items) fixed.new.items ≡ fixed.old.items }
    ensures same { (values : List Val) → length values ≡ count →
        exact_extension (holds function.now) (with_fixed fixed.new.items values) ≡ exact_extension (holds function.now) (with_fixed fixed.old.items values) }
{
    while fixed.len() < count && !names(function, fixed.len()) {
        fixed.push(Val::Zero)?;
    }
    Ok(())
}

// Whether the function names the pin.
#[tactic(auto, using(pe_bool_expr::proofs::Formulas::layers, crate::proofs::ExtensionLemmas::among_either))]
fn names(function: &Expr, pin: usize) -> bool
    ensures { result ≡ is_among (pins_of function.now) pin }
{
    match function {
        Expr::Const(_) => false,
        Expr::Pin(other) => *other as usize == pin,
        Expr::Not(inner) => names(inner.get(), pin),
        Expr::And(first, second) | Expr::Or(first, second) | Expr::Xor(first, second) => {
            names(first.get(), pin) || names(second.get(), pin)
        }
    }
}
