//! Where a node stands among others, by a hash of what it is.

ghost use Rattle.std.specs.Prelude.{◌≡◌, ◌≢◌, ℕ, ◌<◌, ◌+◌, [], length, OnOk, IfOk, IfSome, IfNone};
ghost use Rattle.pe_graph.specs.Nodes.{node_at};
ghost use Rattle.pe_graph.specs.Table.{bucket_of, mixed_of, IsLinked};

use crate::graph::Node;
use pe_base::Want;
use std::alloc::Global;

/// The nodes of each bucket, linked from the newest to the oldest.
#[derive(Drop)]
pub struct Table {
    // For each bucket one more than the number of its newest node, or 0.
    pub heads: Vec<usize>,
    // For each node the same of the node before it in its bucket.
    pub earlier: Vec<usize>,
}

impl Table {
    /// The table of no nodes.
    pub fn new(alloc: Global) -> Result<Table, Want>
        ensures { IfOk result (λ table. IsLinked [] 0 table.heads.items table.earlier.items) }
    {
        let heads = vec![in alloc; 0usize; 16]?;
        let earlier = Vec::new(alloc);
        Ok(Table { heads, earlier })
    }

    /// The number of the node, if it is among these.
    pub fn find(&self, nodes: &[Node], node: &Node) -> Option<usize>
        requires { IsLinked nodes.now (length nodes.now) self.now.heads.items self.now.earlier.items }
        ensures found { IfSome result (λ var. (var < length nodes.now) × (node_at nodes.now var ≡ node.now)) }
        ensures absent { IfNone result ((var : ℕ) → var < length nodes.now → node_at nodes.now var ≢ node.now) }
    {
        let mut after = self.heads[bucket(self.heads.len(), *node)];
        while after > 0 {
            let var = after - 1;
            if nodes[var] == *node {
                return Some(var);
            }
            after = self.earlier[var];
        }
        None
    }

    /// Makes room for one more node than these.
    pub fn reserve(&mut self, nodes: &[Node]) -> Result<(), Want>
        requires { IsLinked nodes.now (length nodes.now) self.old.heads.items self.old.earlier.items }
        ensures linked { IsLinked nodes.now (length nodes.now) self.new.heads.items self.new.earlier.items }
        ensures room { OnOk result (length nodes.now < length self.new.earlier.items) }
    {
        if self.earlier.len() == nodes.len() {
            self.earlier.push(0)?;
        }
        if self.heads.len() <= nodes.len() {
            self.spread(nodes)?;
        }
        Ok(())
    }

    // Doubles the buckets.
    fn spread(&mut self, nodes: &[Node]) -> Result<(), Want>
        requires { IsLinked nodes.now (length nodes.now) self.old.heads.items self.old.earlier.items }
        ensures linked { IsLinked nodes.now (length nodes.now) self.new.heads.items self.new.earlier.items }
        ensures room { length self.new.earlier.items ≡ length self.old.earlier.items }
    {
        let size = self.heads.len().saturating_mul(2);
        self.heads.resize(size, 0)?;
        self.heads.fill(0);
        for var in 0..nodes.len() {
            self.link(nodes, var);
        }
        Ok(())
    }

    /// Links the node of this number, where those before it are.
    pub fn link(&mut self, nodes: &[Node], var: usize)
        requires before { IsLinked nodes.now var self.old.heads.items self.old.earlier.items }
        requires within { var < length nodes.now }
        ensures linked { IsLinked nodes.now (var + 1) self.new.heads.items self.new.earlier.items }
        ensures room { length self.new.earlier.items ≡ length self.old.earlier.items }
    {
        let bucket = bucket(self.heads.len(), nodes[var]);
        self.earlier[var] = self.heads[bucket];
        self.heads[bucket] = var + 1;
    }
}

// The bucket of a node, among this many.
#[tactic(auto, unfolding(crate::specs::Table::bucket_of))]
fn bucket(size: usize, node: Node) -> usize
    requires { 0 < size }
    ensures within { result < size }
    ensures value { result ≡ bucket_of size node }
{
    match node {
        Node::True => 0,
        Node::Leaf(number) => number as usize % size,
        Node::And(a, b) => mixed(a.code(), b.code()) as usize % size,
    }
}

// Two numbers as one of 32 bits: the upper half of their sum times odd numbers.
#[tactic(auto, unfolding(crate::specs::Table::mixed_of))]
fn mixed(a: u64, b: u64) -> u64
    ensures { result ≡ mixed_of a b }
{
    let sum = a
        .wrapping_mul(11_400_714_819_323_198_485)
        .wrapping_add(b.wrapping_mul(14_029_467_366_897_019_727));
    sum / 0x1_0000_0000
}
