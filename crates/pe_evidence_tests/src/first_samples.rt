//! The first sample in counting order: the leaf with the smallest number has the highest bit, and a leaf outside the
//! cone is 0.

use crate::pigeons::all_alone;
use crate::searches::{both, decided, either, job_of};
use pe_base::Want;
use pe_cnf::{Goal, is_askable};
use pe_graph::{Graph, Lit};
use pe_solver::{Decision, question};
use std::alloc::Global;
use std::process::Abort;
use std::test::Fail;

// The sample for two literals of a graph of so many leaves where a third is 1; no values where there is none.
fn sample(
    rt: &impl Abort,
    alloc: Global,
    graph: Graph,
    leaves: u32,
    ctx: Lit,
    a: Lit,
    b: Lit,
) -> Result<Vec<bool>, Want> {
    let goal = Goal { ctx, a, b, leaves };
    let job = job_of(rt, alloc, graph, leaves)?;
    assert!(rt; is_askable(&job, &goal, &[]));
    let set = question(alloc, &job, goal, &[])?;
    match decided(rt, alloc, &set, leaves, 0)? {
        Decision::Sample(values) => Ok(values),
        Decision::Refuted(_) => Ok(Vec::new(alloc)),
        Decision::Spent(_) => Ok(Vec::new(alloc)),
    }
}

// Leaf 1, or leaves 3 and 4, of five leaves that stand in the graph in another order. The assignments 011 and 100 of
// leaves 1, 3 and 4 are samples, and none before them.
#[test]
fn three_of_five_leaves(rt: HostRuntime) -> Result<(), Fail> {
    let alloc = rt.alloc();
    let mut graph = Graph::new(alloc)?;
    let last = graph.leaf(4)?;
    let first = graph.leaf(1)?;
    let _unused = graph.leaf(0)?;
    let second = graph.leaf(3)?;
    let _unused = graph.leaf(2)?;
    let all = both(&rt, &mut graph, last, second)?;
    let some = either(&rt, &mut graph, first, all)?;
    let truth = Lit::truth(true);
    let values = sample(&rt, alloc, graph, 5, truth, some, truth.complement())?;
    assert!(rt; values.as_slice() == [false, false, false, true, true].as_slice());
    Ok(())
}

// Leaves 0 and 2 differ where leaf 1 is 1: first in 011.
#[test]
fn two_leaves_under_a_third(rt: HostRuntime) -> Result<(), Fail> {
    let alloc = rt.alloc();
    let mut graph = Graph::new(alloc)?;
    let last = graph.leaf(2)?;
    let middle = graph.leaf(1)?;
    let first = graph.leaf(0)?;
    let values = sample(&rt, alloc, graph, 3, middle, first, last)?;
    assert!(rt; values.as_slice() == [false, true, true].as_slice());
    Ok(())
}

// Three pigeons in four holes, by pigeons: the first sits in the last hole, and each further one in the hole before.
#[test]
fn pigeons_from_the_last_hole_on(rt: HostRuntime) -> Result<(), Fail> {
    let alloc = rt.alloc();
    let mut graph = Graph::new(alloc)?;
    let all = all_alone(&rt, &mut graph, 3, 4)?;
    let truth = Lit::truth(true);
    let values = sample(&rt, alloc, graph, 12, truth, all, truth.complement())?;
    let wanted = [
        false, false, false, true, false, false, true, false, false, true, false, false,
    ];
    assert!(rt; values.as_slice() == wanted.as_slice());
    Ok(())
}
