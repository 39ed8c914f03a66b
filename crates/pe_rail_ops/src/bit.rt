//! A value as two literals, and operators on one bit.

ghost use Rattle.std.specs.Prelude.{◌≡◌, ℕ, Bool, IfOk, OnErr, List};
ghost use Rattle.pe_base.specs.Values.{known_of, pick_of};
ghost use Rattle.pe_base.specs.Operators.{not_of, and_of, or_of, xor_of, xnor_of};
ghost use Rattle.pe_base.specs.Registers.{kept_of};
ghost use Rattle.pe_base.specs.Words.{is_one};
ghost use Rattle.pe_graph.specs.declared.graph.Node.{Node};
ghost use Rattle.pe_graph.specs.Nodes.{IsIn, IsGraph, value_in, Gives, Grows};
ghost use Rattle.pe_rail_ops.specs.Rails.{IsRail, GivesRail, rail_in, side_of};

use pe_base::{Val, Want};
use pe_graph::{Graph, Lit};

/// A value: `one` says that it is 1, `zero` that it is 0, and neither that it is corrupt.
#[derive(Clone, Copy, Debug, PartialEq, Eq)]
pub struct Rail {
    pub one: Lit,
    pub zero: Lit,
}

/// The rail of a value that no leaf changes.
pub fn constant(x: Val) -> Rail
    ensures is_rail { (nodes : List Node) → IsGraph nodes → IsRail nodes result }
    ensures value { (nodes : List Node) (v : ℕ → Bool) → IsGraph nodes → rail_in v nodes result ≡ x }
{
    Rail {
        one: Lit::truth(is_one(x)),
        zero: Lit::truth(is_one(pe_base::not(x))),
    }
}

/// The rail of a known bit.
pub fn known(bit: Lit) -> Rail
    ensures is_rail { (nodes : List Node) → IsIn nodes bit → IsRail nodes result }
    ensures value { (nodes : List Node) (v : ℕ → Bool) → rail_in v nodes result ≡ known_of (value_in v nodes bit) }
{
    Rail {
        one: bit,
        zero: bit.complement(),
    }
}

/// `~a`
pub fn not(a: &Rail) -> Rail
    ensures is_rail { (nodes : List Node) → IsRail nodes a.now → IsRail nodes result }
    ensures value { (nodes : List Node) (v : ℕ → Bool) → IsRail nodes a.now → rail_in v nodes result ≡ not_of (rail_in v nodes a.now) }
{
    Rail {
        one: a.zero,
        zero: a.one,
    }
}

/// `a & b`
pub fn and(graph: &mut Graph, a: &Rail, b: &Rail) -> Result<Rail, Want>
    requires a_in { IsRail graph.old a.now }
    requires b_in { IsRail graph.old b.now }
    ensures gives { IfOk result (GivesRail graph.old graph.new (λ v. and_of (rail_in v graph.old a.now) (rail_in v graph.old b.now))) }
    ensures want { OnErr result (Grows graph.old graph.new) }
{
    let one = graph.and(a.one, b.one)?;
    let zero = graph.or(a.zero, b.zero)?;
    Ok(Rail { one, zero })
}

/// `a | b`
pub fn or(graph: &mut Graph, a: &Rail, b: &Rail) -> Result<Rail, Want>
    requires a_in { IsRail graph.old a.now }
    requires b_in { IsRail graph.old b.now }
    ensures gives { IfOk result (GivesRail graph.old graph.new (λ v. or_of (rail_in v graph.old a.now) (rail_in v graph.old b.now))) }
    ensures want { OnErr result (Grows graph.old graph.new) }
{
    let one = graph.or(a.one, b.one)?;
    let zero = graph.and(a.zero, b.zero)?;
    Ok(Rail { one, zero })
}

/// `a ^ b`
pub fn xor(graph: &mut Graph, a: &Rail, b: &Rail) -> Result<Rail, Want>
    requires a_in { IsRail graph.old a.now }
    requires b_in { IsRail graph.old b.now }
    ensures gives { IfOk result (GivesRail graph.old graph.new (λ v. xor_of (rail_in v graph.old a.now) (rail_in v graph.old b.now))) }
    ensures want { OnErr result (Grows graph.old graph.new) }
{
    let flipped = not(b);
    let r = pick(graph, a, b, &flipped)?;
    Ok(r)
}

/// `a ~^ b`
pub fn xnor(graph: &mut Graph, a: &Rail, b: &Rail) -> Result<Rail, Want>
    requires a_in { IsRail graph.old a.now }
    requires b_in { IsRail graph.old b.now }
    ensures gives { IfOk result (GivesRail graph.old graph.new (λ v. xnor_of (rail_in v graph.old a.now) (rail_in v graph.old b.now))) }
    ensures want { OnErr result (Grows graph.old graph.new) }
{
    let r = xor(graph, a, b)?;
    Ok(not(&r))
}

/// `x` where the control is 0, `y` where it is 1, their merge where it is corrupt.
pub fn pick(graph: &mut Graph, control: &Rail, x: &Rail, y: &Rail) -> Result<Rail, Want>
    requires control_in { IsRail graph.old control.now }
    requires x_in { IsRail graph.old x.now }
    requires y_in { IsRail graph.old y.now }
    ensures gives { IfOk result (GivesRail graph.old graph.new (λ v. pick_of (rail_in v graph.old control.now) (rail_in v graph.old x.now) (rail_in v graph.old y.now))) }
    ensures want { OnErr result (Grows graph.old graph.new) }
{
    let one = side(graph, control, x.one, y.one)?;
    let zero = side(graph, control, x.zero, y.zero)?;
    Ok(Rail { one, zero })
}

/// The value where the literal is 1, and corrupt where it is 0.
pub fn kept(graph: &mut Graph, on: Lit, x: &Rail) -> Result<Rail, Want>
    requires on_in { IsIn graph.old on }
    requires x_in { IsRail graph.old x.now }
    ensures gives { IfOk result (GivesRail graph.old graph.new (λ v. kept_of (value_in v graph.old on) (rail_in v graph.old x.now))) }
    ensures want { OnErr result (Grows graph.old graph.new) }
{
    let one = graph.and(on, x.one)?;
    let zero = graph.and(on, x.zero)?;
    Ok(Rail { one, zero })
}

// One side of what a control picks: that of `x` unless the control is 1, and that of `y` unless it is 0.
fn side(graph: &mut Graph, control: &Rail, x: Lit, y: Lit) -> Result<Lit, Want>
    requires control_in { IsRail graph.old control.now }
    requires x_in { IsIn graph.old x }
    requires y_in { IsIn graph.old y }
    ensures gives { IfOk result (Gives graph.old graph.new (λ v. side_of (value_in v graph.old control.now.one) (value_in v graph.old control.now.zero) (value_in v graph.old x) (value_in v graph.old y))) }
    ensures want { OnErr result (Grows graph.old graph.new) }
{
    let first = graph.or(x, control.one)?;
    let second = graph.or(y, control.zero)?;
    let both = graph.and(first, second)?;
    Ok(both)
}

fn is_one(x: Val) -> bool
    ensures { result ≡ is_one x }
{
    x == Val::One
}
