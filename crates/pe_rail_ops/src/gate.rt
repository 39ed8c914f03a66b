//! Operators on two bits by name, so that one loop serves them all.

ghost use Rattle.std.specs.Prelude.{◌≡◌, ◌∷◌, [], IfOk, OnErr, All, length, fold};
ghost use Rattle.pe_base.specs.Words.{each_pair};
ghost use Rattle.pe_graph.specs.Nodes.{Grows};
ghost use Rattle.pe_rail_ops.specs.Rails.{IsRail, GivesRail, GivesRails, rail_in, rails_in};
ghost use Rattle.pe_rail_ops.specs.Gates.{gate_in, IsGate, turned};

use crate::bit::{self, Rail};
use pe_base::{Val, Want};
use pe_graph::Graph;
use sqlite_items::Items;
use std::alloc::Global;

/// An operator on two bits.
#[derive(Clone, Copy)]
pub enum Gate {
    And,
    Or,
    Xor,
    Xnor,
    /// The first where the rail is 0, the second where it is 1, their merge where it is corrupt.
    Pick(Rail),
}

impl Gate {
    pub fn of(&self, graph: &mut Graph, x: &Rail, y: &Rail) -> Result<Rail, Want>
        requires gate_in { IsGate graph.old self.now }
        requires x_in { IsRail graph.old x.now }
        requires y_in { IsRail graph.old y.now }
        ensures gives { IfOk result (GivesRail graph.old graph.new (λ v. gate_in v graph.old self.now (rail_in v graph.old x.now) (rail_in v graph.old y.now))) }
        ensures want { OnErr result (Grows graph.old graph.new) }
    {
        match self {
            Gate::And => bit::and(graph, x, y),
            Gate::Or => bit::or(graph, x, y),
            Gate::Xor => bit::xor(graph, x, y),
            Gate::Xnor => bit::xnor(graph, x, y),
            Gate::Pick(control) => bit::pick(graph, control, x, y),
        }
    }

    /// The operator on each pair of bits.
    pub fn of_each(
        &self,
        alloc: Global,
        graph: &mut Graph,
        a: &[Rail],
        b: &[Rail],
    ) -> Result<Items<Rail>, Want>
        requires gate_in { IsGate graph.old self.now }
        requires widths { length a.now ≡ length b.now }
        requires a_in { All (IsRail graph.old) a.now }
        requires b_in { All (IsRail graph.old) b.now }
        ensures gives { IfOk result (GivesRails graph.old graph.new (λ v. each_pair (gate_in v graph.old self.now) (rails_in v graph.old a.now) (rails_in v graph.old b.now))) }
        ensures want { OnErr result (Grows graph.old graph.new) }
    {
        let mut bits = Items::new(alloc);
        for i in 0..a.len() {
            let bit = self.of(graph, &a[i], &b[i])?;
            bits.push(bit)?;
        }
        Ok(bits)
    }

    /// All bits put together by the operator, from a first value on.
    pub fn of_all(&self, graph: &mut Graph, first: Val, a: &[Rail]) -> Result<Rail, Want>
        requires gate_in { IsGate graph.old self.now }
        requires a_in { All (IsRail graph.old) a.now }
        ensures gives { IfOk result (GivesRail graph.old graph.new (λ v. fold (gate_in v graph.old self.now) first (rails_in v graph.old a.now))) }
        ensures want { OnErr result (Grows graph.old graph.new) }
    {
        graph.graph_law();
        let mut all = bit::constant(first);
        for i in 0..a.len() {
            let more = self.of(graph, &all, &a[i])?;
            all = more;
        }
        Ok(all)
    }

    /// The same as a word of one bit, complemented where it is to be turned.
    pub fn reduce(
        &self,
        alloc: Global,
        graph: &mut Graph,
        first: Val,
        turn: bool,
        a: &[Rail],
    ) -> Result<Items<Rail>, Want>
        requires gate_in { IsGate graph.old self.now }
        requires a_in { All (IsRail graph.old) a.now }
        ensures gives { IfOk result (GivesRails graph.old graph.new (λ v. turned turn (fold (gate_in v graph.old self.now) first (rails_in v graph.old a.now)) ∷ [])) }
        ensures want { OnErr result (Grows graph.old graph.new) }
    {
        let all = self.of_all(graph, first, a)?;
        let all = if turn { bit::not(&all) } else { all };
        let bits = Items::from_slice(alloc, &[all])?;
        Ok(bits)
    }
}
