//! Plain evaluation of a graph.

ghost use Rattle.std.specs.Prelude.{◌≡◌, ℕ, ◌≤◌, ◌<◌, false, IfOk, length, slice_index_or};
ghost use Rattle.pe_graph.specs.Literals.{var_of};
ghost use Rattle.pe_graph.specs.Nodes.{IsIn, AreBelow, value_in, lit_value, node_value};

use crate::graph::{Graph, Node};
use crate::literal::Lit;
use pe_base::Want;
use std::alloc::Global;
use std::marker::Model;

/// Room for the values of nodes. Contracts see how many nodes it is for.
#[derive(Drop)]
pub struct Marks {
    values: Vec<bool>,
}

impl Model for Marks {
    ghost use Rattle.std.specs.Prelude.{ℕ, length};

    ghost Value = { ℕ };

    ghost view = { λ m. length m.values.items };
}

impl Marks {
    /// Room for each node of the graph.
    pub fn new(alloc: Global, graph: &Graph) -> Result<Marks, Want>
        ensures { IfOk result (λ marks. marks ≡ length graph.now) }
    {
        let values = vec![in alloc; false; graph.nodes() as usize]?;
        Ok(Marks { values })
    }
}

impl Graph {
    /// The value of the literal, where the leaves have these values by their numbers. A leaf beyond them is 0.
    pub fn value(&self, lit: Lit, leaves: &[bool], marks: &mut Marks) -> bool
        requires lit_in { IsIn self.now lit }
        requires room { length self.now ≤ marks.old }
        ensures value { result ≡ value_in (λ k. slice_index_or leaves.now k false) self.now lit }
        ensures room { marks.new ≡ marks.old }
    {
        self.graph_law();
        let values = &mut marks.values[..];
        for var in 0..lit.var() + 1 {
            let value = node_value(self.node(var), leaves, values);
            values[var as usize] = value;
        }
        lit_value(lit, values)
    }
}

// The value of a literal, given those of the nodes.
fn lit_value(lit: Lit, values: &[bool]) -> bool
    requires { var_of lit < length values.now }
    ensures { result ≡ lit_value values.now lit }
{
    let value = values[lit.var() as usize];
    if lit.negated() { !value } else { value }
}

// The value of a node, given those of the nodes before it.
fn node_value(node: Node, leaves: &[bool], values: &[bool]) -> bool
    requires { AreBelow (length values.now) node }
    ensures { result ≡ node_value (λ k. slice_index_or leaves.now k false) values.now node }
{
    match node {
        Node::True => true,
        Node::Leaf(number) => match leaves.get(number as usize) {
            Some(value) => *value,
            None => false,
        },
        Node::And(a, b) => lit_value(a, values) && lit_value(b, values),
    }
}
