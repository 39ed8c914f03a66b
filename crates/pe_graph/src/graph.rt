//! And-inverter graphs.

ghost use Rattle.std.specs.Prelude.{◌≡◌, ◌≢◌, ℕ, not, ◌&&◌, ◌||◌, ◌<◌, ◌≤◌, ◌+◌, ◌^◌, ◌∷◌, [], IfOk, OnErr, List, length};
ghost use Rattle.std.specs.Option.{SomeIff};
ghost use Rattle.pe_graph.specs.declared.graph.Node.{Node};
ghost use Rattle.pe_graph.specs.declared.graph.Node.TheVariants.{True};
ghost use Rattle.pe_graph.specs.Literals.{complement_of};
ghost use Rattle.pe_graph.specs.Nodes.{IsIn, IsGraph, value_in, values, node_value, node_at, AreBelow, Gives, StandsFor, IsAnd, IsOrderedAnd, known_and};

use crate::literal::Lit;
use crate::table::Table;
use pe_base::Want;
use std::alloc::Global;
use std::marker::Model;

/// What a node is: the constant true, a leaf by its number, or `a & b`.
#[derive(Clone, Copy, Debug, PartialEq, Eq)]
pub enum Node {
    True,
    Leaf(u32),
    And(Lit, Lit),
}

/// Nodes by their numbers, each after those that it names. Node 0 is the constant true, and no two nodes are equal.
/// Contracts see the list of nodes.
#[derive(Drop)]
pub struct Graph {
    nodes: Vec<Node>,
    table: Table,
}

impl Model for Graph {
    ghost use Rattle.std.specs.Prelude.{List, length};
    ghost use Rattle.pe_graph.specs.declared.graph.Node.{Node};

    ghost Value = { List Node };

    ghost view = { λ g. g.nodes.items };

    ghost use Rattle.pe_graph.specs.Nodes.{IsGraph};
    ghost use Rattle.pe_graph.specs.Table.{IsLinked};

    ghost invariant = { λ g. IsGraph g.nodes.items × IsLinked g.nodes.items (length g.nodes.items) g.table.heads.items g.table.earlier.items };
}

// Of one node more the number would not fit a literal.
const MOST: usize = 0x3fff_ffff_ffff_ffff;

impl Graph {
    /// The graph of node 0 alone.
    pub fn new(alloc: Global) -> Result<Graph, Want>
        ensures { IfOk result (λ graph. graph ≡ Node.True ∷ []) }
    {
        let nodes = vec![in alloc; Node::True]?;
        let mut table = Table::new(alloc)?;
        table.reserve(&[])?;
        table.link(&nodes, 0);
        Ok(Graph { nodes, table })
    }

    /// What holds of each graph: node 0 is the constant true, no two nodes are equal, and each stands after those that
    /// it names.
    pub fn graph_law(&self)
        ensures { IsGraph self.now }
    {
        let _nodes = &self.nodes;
    }

    /// How many nodes there are. The number of each is below it.
    pub fn nodes(&self) -> u64
        ensures count { result ≡ length self.now }
        ensures few { result < 2 ^ 62 }
    {
        self.nodes.len() as u64
    }

    /// The node of this number. What it names has smaller numbers.
    pub fn node(&self, var: u64) -> Node
        requires { var < length self.now }
        ensures value { result ≡ node_at self.now var }
        ensures below { AreBelow var result }
    {
        self.nodes[var as usize]
    }

    /// The literal of this code, if it is of this graph.
    pub fn lit(&self, code: u64) -> Option<Lit>
        ensures { SomeIff result (IsIn self.now code) code }
    {
        if code / 2 < self.nodes() {
            Some(Lit::of(code / 2, code % 2 == 1))
        } else {
            None
        }
    }

    /// The leaf of this number. The same number gives the same literal again.
    pub fn leaf(&mut self, number: u32) -> Result<Lit, Want>
        ensures gives { IfOk result (Gives self.old self.new (λ v. v number)) }
        ensures stands { IfOk result (StandsFor self.new (Node.Leaf number)) }
        ensures again { (l : ℕ) → StandsFor self.old (Node.Leaf number) l → (result ≡ Ok l) × (self.new ≡ self.old) }
        ensures few { length self.new ≤ length self.old + 1 }
        ensures want { OnErr result (self.new ≡ self.old) }
    {
        self.place(Node::Leaf(number))
    }

    /// The literal that is 1 where both are. The same two literals, in either order, give the same literal again.
    pub fn and(&mut self, a: Lit, b: Lit) -> Result<Lit, Want>
        requires a_in { IsIn self.old a }
        requires b_in { IsIn self.old b }
        ensures gives { IfOk result (Gives self.old self.new (λ v. value_in v self.old a && value_in v self.old b)) }
        ensures stands { IfOk result (IsAnd self.new a b) }
        ensures again { (l : ℕ) → IsAnd self.old a b l → (result ≡ Ok l) × (self.new ≡ self.old) }
        ensures few { length self.new ≤ length self.old + 1 }
        ensures want { OnErr result (self.new ≡ self.old) }
    {
        if b.code() < a.code() {
            self.ordered_and(b, a)
        } else {
            self.ordered_and(a, b)
        }
    }

    /// The literal that is 1 where one of them is, or both.
    pub fn or(&mut self, a: Lit, b: Lit) -> Result<Lit, Want>
        requires a_in { IsIn self.old a }
        requires b_in { IsIn self.old b }
        ensures gives { IfOk result (Gives self.old self.new (λ v. value_in v self.old a || value_in v self.old b)) }
        ensures few { length self.new ≤ length self.old + 1 }
        ensures want { OnErr result (self.new ≡ self.old) }
    {
        let neither = self.and(a.complement(), b.complement())?;
        Ok(neither.complement())
    }

    /// The literal that is 1 where this one is 0.
    pub fn not(&self, lit: Lit) -> Lit
        requires { IsIn self.now lit }
        ensures gives { Gives self.now self.now (λ v. not (value_in v self.now lit)) result }
        ensures value { result ≡ complement_of lit }
    {
        lit.complement()
    }

    // `a & b`, for an `a` that is not above `b`.
    fn ordered_and(&mut self, a: Lit, b: Lit) -> Result<Lit, Want>
        requires order { a ≤ b }
        requires b_in { IsIn self.old b }
        ensures gives { IfOk result (Gives self.old self.new (λ v. value_in v self.old a && value_in v self.old b)) }
        ensures stands { IfOk result (IsOrderedAnd self.new a b) }
        ensures again { (l : ℕ) → IsOrderedAnd self.old a b l → (result ≡ Ok l) × (self.new ≡ self.old) }
        ensures few { length self.new ≤ length self.old + 1 }
        ensures want { OnErr result (self.new ≡ self.old) }
    {
        self.graph_law();
        match known_and(a, b) {
            Some(lit) => Ok(lit),
            None => self.place(Node::And(a, b)),
        }
    }

    // The literal of a node that is equal to this one, or of a new one.
    fn place(&mut self, node: Node) -> Result<Lit, Want>
        requires { AreBelow (length self.old) node }
        ensures gives { IfOk result (Gives self.old self.new (λ v. node_value v (values v self.old) node)) }
        ensures stands { IfOk result (StandsFor self.new node) }
        ensures again { (l : ℕ) → StandsFor self.old node l → (result ≡ Ok l) × (self.new ≡ self.old) }
        ensures few { length self.new ≤ length self.old + 1 }
        ensures want { OnErr result (self.new ≡ self.old) }
    {
        match self.table.find(&self.nodes, &node) {
            Some(var) => Ok(Lit::of(var as u64, false)),
            None => self.add(node),
        }
    }

    // The literal of a new node.
    fn add(&mut self, node: Node) -> Result<Lit, Want>
        requires below { AreBelow (length self.old) node }
        requires new { (var : ℕ) → var < length self.old → node_at self.old var ≢ node }
        ensures gives { IfOk result (Gives self.old self.new (λ v. node_value v (values v self.old) node)) }
        ensures stands { IfOk result (StandsFor self.new node) }
        ensures few { length self.new ≤ length self.old + 1 }
        ensures want { OnErr result (self.new ≡ self.old) }
    {
        let var = self.nodes.len();
        if var >= MOST {
            return Err(Want);
        }
        self.table.reserve(&self.nodes)?;
        self.nodes.push(node)?;
        self.table.link(&self.nodes, var);
        Ok(Lit::of(var as u64, false))
    }
}

// `a & b` where it is known with no node, for an `a` that is not above `b`.
fn known_and(a: Lit, b: Lit) -> Option<Lit>
    ensures { result ≡ known_and a b }
{
    if a == Lit::truth(true) {
        Some(b)
    } else if a == Lit::truth(false) || b == a.complement() {
        Some(Lit::truth(false))
    } else if a == b {
        Some(a)
    } else {
        None
    }
}
