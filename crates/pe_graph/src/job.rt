//! Obligations over a graph.

ghost use Rattle.std.specs.Prelude.{◌≡◌, ◌↔◌, ◌<◌, ◌≤◌, ◌^◌, ℕ, All, IsTrue, IfOk, [], length};
ghost use Rattle.pe_graph.specs.Cone.{IsGoalIn, has_form, HasSmallCone, has_leaf};

use crate::graph::Graph;
use crate::literal::Lit;
use pe_base::Want;
use sqlite_items::Items;
use std::alloc::Global;

/// What a leaf of a graph stands for: a root or an input in a cycle, counted from 1, or half of the state of a register
/// before the first cycle, by the number of the register. A value is corrupt where the first half is 1, and else what
/// the second half says.
#[derive(Clone, Copy, Debug, PartialEq, Eq)]
pub enum Leaf {
    Root { cycle: u32, root: u32 },
    Input { cycle: u32, input: u32 },
    RtlCorrupt(u32),
    RtlOne(u32),
    RtlShadowCorrupt(u32),
    RtlShadowOne(u32),
    NetCorrupt(u32),
    NetOne(u32),
    NetShadowCorrupt(u32),
    NetShadowOne(u32),
}

/// What is to hold: under each assignment where `ctx` is 1, `a` and `b` are equal. A live goal has the constant false as
/// `b`, and the others have the constant true.
#[derive(Clone, Copy, Debug, PartialEq, Eq)]
pub struct Goal {
    pub ctx: Lit,
    pub a: Lit,
    pub b: Lit,
    /// How many leaves are below its literals, at most.
    pub leaves: u32,
}

/// A graph, what its leaves stand for, by their numbers, and goals over it.
#[derive(Drop)]
pub struct Job {
    pub graph: Graph,
    pub leaves: Items<Leaf>,
    pub goals: Items<Goal>,
    pub ghost few_goals: { length goals ≤ 1048576 },
    pub ghost few_leaves: { length leaves < 2 ^ 32 },
    pub ghost leaf_each: { (k : ℕ) → IsTrue (has_leaf graph k) ↔ (k < length leaves) },
    pub ghost goals_in: { All (IsGoalIn graph) goals },
    pub ghost formed: { All (λ g. IsTrue (has_form g)) goals },
    pub ghost small_cones: { All (HasSmallCone graph) goals },
}

impl Job {
    /// The job of these goals. Each fact is one of those that every job has.
    pub fn with(graph: Graph, leaves: Items<Leaf>, goals: Items<Goal>) -> Job
        requires few_goals { length goals ≤ 1048576 }
        requires few_leaves { length leaves < 2 ^ 32 }
        requires leaf_each { (k : ℕ) → IsTrue (has_leaf graph k) ↔ (k < length leaves) }
        requires goals_in { All (IsGoalIn graph) goals }
        requires formed { All (λ g. IsTrue (has_form g)) goals }
        requires small_cones { All (HasSmallCone graph) goals }
        ensures graph { result.graph ≡ graph }
        ensures leaves { result.leaves ≡ leaves }
        ensures goals { result.goals ≡ goals }
    {
        Job {
            graph,
            leaves,
            goals,
        }
    }

    /// The job of the constants, with no goal.
    pub fn new(alloc: Global) -> Result<Job, Want>
        ensures { IfOk result (λ job. (job.leaves ≡ []) × (job.goals ≡ [])) }
    {
        let graph = Graph::new(alloc)?;
        Ok(Job {
            graph,
            leaves: Items::new(alloc),
            goals: Items::new(alloc),
        })
    }
}
