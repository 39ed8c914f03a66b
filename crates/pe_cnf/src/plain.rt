//! Jobs with no goal.

ghost use Rattle.std.specs.Prelude.{◌≡◌, ◌↔◌, ◌<◌, ◌≤◌, ◌^◌, ℕ, [], IsTrue, MatchOption, length};
ghost use Rattle.pe_graph.specs.Cone.{has_leaf as is_there};
ghost use Rattle.pe_cnf.specs.Cone.{HasLeaves, HasJust};

use pe_graph::{Graph, Job, Leaf, Node};
use sqlite_items::Items;
use std::alloc::Global;

/// The job of a graph and of what its leaves stand for, by their numbers, with no goal: for a caller that cannot know
/// that the graph has just these leaves. None if it has others, or lacks one.
pub fn plain_job(alloc: Global, graph: Graph, leaves: Items<Leaf>) -> Option<Job>
    ensures { MatchOption result (HasJust graph (length leaves) → 2 ^ 32 ≤ length leaves) (λ job. (job.graph ≡ graph) × (job.leaves ≡ leaves) × (job.goals ≡ [])) }
{
    if leaves.len() > u32::MAX as usize {
        return None;
    }
    let count = leaves.len() as u32;
    if !has_leaves(&graph, count) {
        return None;
    }
    if !has_each(&graph, count) {
        return None;
    }
    Some(Job::with(graph, leaves, Items::new(alloc)))
}

// Whether the leaves have numbers below the count.
fn has_leaves(graph: &Graph, count: u32) -> bool
    ensures { IsTrue result ↔ HasLeaves graph.now count }
{
    for x in 0..graph.nodes() {
        if let Node::Leaf(number) = graph.node(x) {
            if number >= count {
                return false;
            }
        }
    }
    true
}

// Whether there is a leaf of each number below the count.
fn has_each(graph: &Graph, count: u32) -> bool
    ensures { IsTrue result ↔ ((k : ℕ) → k < count → IsTrue (is_there graph.now k)) }
{
    for number in 0..count {
        if !has_leaf(graph, number) {
            return false;
        }
    }
    true
}

// Whether there is a leaf of this number.
fn has_leaf(graph: &Graph, number: u32) -> bool
    ensures { IsTrue result ↔ IsTrue (is_there graph.now number) }
{
    for x in 0..graph.nodes() {
        if let Node::Leaf(k) = graph.node(x) {
            if k == number {
                return true;
            }
        }
    }
    false
}
