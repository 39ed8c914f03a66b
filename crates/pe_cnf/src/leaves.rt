//! The leaves of a cone, by their numbers.

ghost use Rattle.std.specs.Prelude.{◌≡◌, ◌+◌, ◌<◌, ◌≤◌, ◌^◌, length, IfOk, EachIndex};
ghost use Rattle.pe_cnf.specs.Cone.{AreLeaves, HasLeaves};
ghost use Rattle.pe_cnf.specs.Marks.{mark_of, entry_of, IsLeafTable, IsListOf};

use pe_base::Want;
use pe_graph::{Graph, Node};
use std::alloc::Global;

/// The leaves of a cone by rising number, each with its variable.
pub fn cone_leaves(
    alloc: Global,
    graph: &Graph,
    cone: &[bool],
    numbers: &[u64],
    width: u32,
) -> Result<Vec<(u32, u64)>, Want>
    requires marks { length cone.now ≡ length graph.now }
    requires numbers { length graph.now ≤ length numbers.now }
    requires small { EachIndex numbers.now (λ x. entry_of numbers.now x < 2 ^ 62) }
    requires width { HasLeaves graph.now width }
    ensures { IfOk result (λ leaves. AreLeaves (mark_of cone.now) (entry_of numbers.now) graph.now leaves.items) }
{
    let table = leaf_table(alloc, graph, cone, numbers, width)?;
    let leaves = list_leaves(alloc, table.as_slice())?;
    Ok(leaves)
}

// For each number of a leaf of the cone one more than its variable, else 0.
fn leaf_table(
    alloc: Global,
    graph: &Graph,
    cone: &[bool],
    numbers: &[u64],
    width: u32,
) -> Result<Vec<u64>, Want>
    requires marks { length cone.now ≡ length graph.now }
    requires numbers { length graph.now ≤ length numbers.now }
    requires small { EachIndex numbers.now (λ x. entry_of numbers.now x < 2 ^ 62) }
    requires width { HasLeaves graph.now width }
    ensures room { IfOk result (λ table. length table.items ≡ width) }
    ensures table { IfOk result (λ table. IsLeafTable (mark_of cone.now) (entry_of numbers.now) graph.now (length graph.now) table.items) }
{
    graph.graph_law();
    let mut table = vec![in alloc; 0u64; width as usize]?;
    for x in 0..cone.len() {
        if cone[x] {
            if let Node::Leaf(number) = graph.node(x as u64) {
                table[number as usize] = numbers[x] + 1;
            }
        }
    }
    Ok(table)
}

// The numbers with an entry, each with its variable.
fn list_leaves(alloc: Global, table: &[u64]) -> Result<Vec<(u32, u64)>, Want>
    requires { length table.now < 2 ^ 32 }
    ensures { IfOk result (λ leaves. IsListOf table.now (length table.now) leaves.items) }
{
    let mut leaves = Vec::new(alloc);
    for (number, entry) in table.iter().enumerate() {
        if *entry > 0 {
            leaves.push((number as u32, *entry - 1))?;
        }
    }
    Ok(leaves)
}
