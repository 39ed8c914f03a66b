//! Operators bit by bit, reductions, equality, logic and choice.

ghost use Rattle.std.specs.Prelude.{◌≡◌, IfOk, OnErr, All, length};
ghost use Rattle.pe_base.specs.Words.{not_bits, and_bits, or_bits, xor_bits, xnor_bits};
ghost use Rattle.pe_base.specs.Words.{reduce_and_of, reduce_nand_of, reduce_or_of, reduce_nor_of, reduce_xor_of, reduce_xnor_of};
ghost use Rattle.pe_base.specs.Words.{equal_of, not_equal_of, logic_not_of, logic_and_of, logic_or_of, choose_of};
ghost use Rattle.pe_graph.specs.Nodes.{Grows};
ghost use Rattle.pe_rail_ops.specs.Rails.{IsRail, GivesRails, rails_in};

use crate::bit::{self, Rail};
use crate::gate::Gate;
use pe_base::{Val, Want};
use pe_graph::Graph;
use sqlite_items::Items;
use std::alloc::Global;

/// `~a`
pub fn not(alloc: Global, graph: &mut Graph, a: &[Rail]) -> Result<Items<Rail>, Want>
    requires { All (IsRail graph.old) a.now }
    ensures gives { IfOk result (GivesRails graph.old graph.new (λ v. not_bits (rails_in v graph.old a.now))) }
    ensures want { OnErr result (Grows graph.old graph.new) }
{
    let mut bits = Items::new(alloc);
    for i in 0..a.len() {
        bits.push(bit::not(&a[i]))?;
    }
    Ok(bits)
}

/// `a & b`
pub fn and(alloc: Global, graph: &mut Graph, a: &[Rail], b: &[Rail]) -> Result<Items<Rail>, Want>
    requires widths { length a.now ≡ length b.now }
    requires a_in { All (IsRail graph.old) a.now }
    requires b_in { All (IsRail graph.old) b.now }
    ensures gives { IfOk result (GivesRails graph.old graph.new (λ v. and_bits (rails_in v graph.old a.now) (rails_in v graph.old b.now))) }
    ensures want { OnErr result (Grows graph.old graph.new) }
{
    let bits = Gate::And.of_each(alloc, graph, a, b)?;
    Ok(bits)
}

/// `a | b`
pub fn or(alloc: Global, graph: &mut Graph, a: &[Rail], b: &[Rail]) -> Result<Items<Rail>, Want>
    requires widths { length a.now ≡ length b.now }
    requires a_in { All (IsRail graph.old) a.now }
    requires b_in { All (IsRail graph.old) b.now }
    ensures gives { IfOk result (GivesRails graph.old graph.new (λ v. or_bits (rails_in v graph.old a.now) (rails_in v graph.old b.now))) }
    ensures want { OnErr result (Grows graph.old graph.new) }
{
    let bits = Gate::Or.of_each(alloc, graph, a, b)?;
    Ok(bits)
}

/// `a ^ b`
pub fn xor(alloc: Global, graph: &mut Graph, a: &[Rail], b: &[Rail]) -> Result<Items<Rail>, Want>
    requires widths { length a.now ≡ length b.now }
    requires a_in { All (IsRail graph.old) a.now }
    requires b_in { All (IsRail graph.old) b.now }
    ensures gives { IfOk result (GivesRails graph.old graph.new (λ v. xor_bits (rails_in v graph.old a.now) (rails_in v graph.old b.now))) }
    ensures want { OnErr result (Grows graph.old graph.new) }
{
    let bits = Gate::Xor.of_each(alloc, graph, a, b)?;
    Ok(bits)
}

/// `a ~^ b`
pub fn xnor(alloc: Global, graph: &mut Graph, a: &[Rail], b: &[Rail]) -> Result<Items<Rail>, Want>
    requires widths { length a.now ≡ length b.now }
    requires a_in { All (IsRail graph.old) a.now }
    requires b_in { All (IsRail graph.old) b.now }
    ensures gives { IfOk result (GivesRails graph.old graph.new (λ v. xnor_bits (rails_in v graph.old a.now) (rails_in v graph.old b.now))) }
    ensures want { OnErr result (Grows graph.old graph.new) }
{
    let bits = Gate::Xnor.of_each(alloc, graph, a, b)?;
    Ok(bits)
}

/// `&a`, of one bit.
pub fn reduce_and(alloc: Global, graph: &mut Graph, a: &[Rail]) -> Result<Items<Rail>, Want>
    requires { All (IsRail graph.old) a.now }
    ensures gives { IfOk result (GivesRails graph.old graph.new (λ v. reduce_and_of (rails_in v graph.old a.now))) }
    ensures want { OnErr result (Grows graph.old graph.new) }
{
    let bits = Gate::And.reduce(alloc, graph, Val::One, false, a)?;
    Ok(bits)
}

/// `~&a`, of one bit.
pub fn reduce_nand(alloc: Global, graph: &mut Graph, a: &[Rail]) -> Result<Items<Rail>, Want>
    requires { All (IsRail graph.old) a.now }
    ensures gives { IfOk result (GivesRails graph.old graph.new (λ v. reduce_nand_of (rails_in v graph.old a.now))) }
    ensures want { OnErr result (Grows graph.old graph.new) }
{
    let bits = Gate::And.reduce(alloc, graph, Val::One, true, a)?;
    Ok(bits)
}

/// `|a`, of one bit.
pub fn reduce_or(alloc: Global, graph: &mut Graph, a: &[Rail]) -> Result<Items<Rail>, Want>
    requires { All (IsRail graph.old) a.now }
    ensures gives { IfOk result (GivesRails graph.old graph.new (λ v. reduce_or_of (rails_in v graph.old a.now))) }
    ensures want { OnErr result (Grows graph.old graph.new) }
{
    let bits = Gate::Or.reduce(alloc, graph, Val::Zero, false, a)?;
    Ok(bits)
}

/// `~|a`, of one bit.
pub fn reduce_nor(alloc: Global, graph: &mut Graph, a: &[Rail]) -> Result<Items<Rail>, Want>
    requires { All (IsRail graph.old) a.now }
    ensures gives { IfOk result (GivesRails graph.old graph.new (λ v. reduce_nor_of (rails_in v graph.old a.now))) }
    ensures want { OnErr result (Grows graph.old graph.new) }
{
    let bits = Gate::Or.reduce(alloc, graph, Val::Zero, true, a)?;
    Ok(bits)
}

/// `^a`, of one bit.
pub fn reduce_xor(alloc: Global, graph: &mut Graph, a: &[Rail]) -> Result<Items<Rail>, Want>
    requires { All (IsRail graph.old) a.now }
    ensures gives { IfOk result (GivesRails graph.old graph.new (λ v. reduce_xor_of (rails_in v graph.old a.now))) }
    ensures want { OnErr result (Grows graph.old graph.new) }
{
    let bits = Gate::Xor.reduce(alloc, graph, Val::Zero, false, a)?;
    Ok(bits)
}

/// `~^a`, of one bit.
pub fn reduce_xnor(alloc: Global, graph: &mut Graph, a: &[Rail]) -> Result<Items<Rail>, Want>
    requires { All (IsRail graph.old) a.now }
    ensures gives { IfOk result (GivesRails graph.old graph.new (λ v. reduce_xnor_of (rails_in v graph.old a.now))) }
    ensures want { OnErr result (Grows graph.old graph.new) }
{
    let bits = Gate::Xor.reduce(alloc, graph, Val::Zero, true, a)?;
    Ok(bits)
}

/// `a == b`, of one bit: 0 where two known bits differ, else corrupt where a bit is.
pub fn equal(alloc: Global, graph: &mut Graph, a: &[Rail], b: &[Rail]) -> Result<Items<Rail>, Want>
    requires widths { length a.now ≡ length b.now }
    requires a_in { All (IsRail graph.old) a.now }
    requires b_in { All (IsRail graph.old) b.now }
    ensures gives { IfOk result (GivesRails graph.old graph.new (λ v. equal_of (rails_in v graph.old a.now) (rails_in v graph.old b.now))) }
    ensures want { OnErr result (Grows graph.old graph.new) }
{
    let same = xnor(alloc, graph, a, b)?;
    let bits = Gate::And.reduce(alloc, graph, Val::One, false, same.as_slice())?;
    Ok(bits)
}

/// `a != b`, of one bit.
pub fn not_equal(
    alloc: Global,
    graph: &mut Graph,
    a: &[Rail],
    b: &[Rail],
) -> Result<Items<Rail>, Want>
    requires widths { length a.now ≡ length b.now }
    requires a_in { All (IsRail graph.old) a.now }
    requires b_in { All (IsRail graph.old) b.now }
    ensures gives { IfOk result (GivesRails graph.old graph.new (λ v. not_equal_of (rails_in v graph.old a.now) (rails_in v graph.old b.now))) }
    ensures want { OnErr result (Grows graph.old graph.new) }
{
    let same = xnor(alloc, graph, a, b)?;
    let bits = Gate::And.reduce(alloc, graph, Val::One, true, same.as_slice())?;
    Ok(bits)
}

/// `!a`, of one bit.
pub fn logic_not(alloc: Global, graph: &mut Graph, a: &[Rail]) -> Result<Items<Rail>, Want>
    requires { All (IsRail graph.old) a.now }
    ensures gives { IfOk result (GivesRails graph.old graph.new (λ v. logic_not_of (rails_in v graph.old a.now))) }
    ensures want { OnErr result (Grows graph.old graph.new) }
{
    let bits = Gate::Or.reduce(alloc, graph, Val::Zero, true, a)?;
    Ok(bits)
}

/// `a && b`, of one bit.
pub fn logic_and(
    alloc: Global,
    graph: &mut Graph,
    a: &[Rail],
    b: &[Rail],
) -> Result<Items<Rail>, Want>
    requires a_in { All (IsRail graph.old) a.now }
    requires b_in { All (IsRail graph.old) b.now }
    ensures gives { IfOk result (GivesRails graph.old graph.new (λ v. logic_and_of (rails_in v graph.old a.now) (rails_in v graph.old b.now))) }
    ensures want { OnErr result (Grows graph.old graph.new) }
{
    let x = Gate::Or.of_all(graph, Val::Zero, a)?;
    let y = Gate::Or.of_all(graph, Val::Zero, b)?;
    let bit = bit::and(graph, &x, &y)?;
    let bits = Items::from_slice(alloc, &[bit])?;
    Ok(bits)
}

/// `a || b`, of one bit.
pub fn logic_or(
    alloc: Global,
    graph: &mut Graph,
    a: &[Rail],
    b: &[Rail],
) -> Result<Items<Rail>, Want>
    requires a_in { All (IsRail graph.old) a.now }
    requires b_in { All (IsRail graph.old) b.now }
    ensures gives { IfOk result (GivesRails graph.old graph.new (λ v. logic_or_of (rails_in v graph.old a.now) (rails_in v graph.old b.now))) }
    ensures want { OnErr result (Grows graph.old graph.new) }
{
    let x = Gate::Or.of_all(graph, Val::Zero, a)?;
    let y = Gate::Or.of_all(graph, Val::Zero, b)?;
    let bit = bit::or(graph, &x, &y)?;
    let bits = Items::from_slice(alloc, &[bit])?;
    Ok(bits)
}

/// `c ? a : b`, and the merge of both, bit by bit, where no bit of `c` is 1 and one is corrupt.
pub fn choose(
    alloc: Global,
    graph: &mut Graph,
    c: &[Rail],
    a: &[Rail],
    b: &[Rail],
) -> Result<Items<Rail>, Want>
    requires widths { length a.now ≡ length b.now }
    requires c_in { All (IsRail graph.old) c.now }
    requires a_in { All (IsRail graph.old) a.now }
    requires b_in { All (IsRail graph.old) b.now }
    ensures gives { IfOk result (GivesRails graph.old graph.new (λ v. choose_of (rails_in v graph.old c.now) (rails_in v graph.old a.now) (rails_in v graph.old b.now))) }
    ensures want { OnErr result (Grows graph.old graph.new) }
{
    let control = Gate::Or.of_all(graph, Val::Zero, c)?;
    let bits = Gate::Pick(control).of_each(alloc, graph, b, a)?;
    Ok(bits)
}
