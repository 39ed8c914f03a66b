//! Budgets at 13 and 14 leaves. With n leaves, n above 12, a budget of 2 ^ n clauses or more is not spent.

use crate::searches::{both, one_of, parity, verdict};
use pe_base::Want;
use pe_graph::{Graph, Lit};
use std::alloc::Global;
use std::process::Abort;
use std::test::Fail;

// What is decided of the sum of so many leaves in two orders, the second turned where all leaves are 1 if `turned`.
fn asked(
    rt: &impl Abort,
    alloc: Global,
    count: u32,
    turned: bool,
    budget: u64,
) -> Result<&'static str, Want> {
    let mut graph = Graph::new(alloc)?;
    let up = parity(rt, &mut graph, count, 1)?;
    let other = parity(rt, &mut graph, count, 5)?;
    let other = if turned {
        let all = all_leaves(rt, &mut graph, count)?;
        one_of(rt, &mut graph, other, all)?
    } else {
        other
    };
    verdict(rt, alloc, graph, count, up, other, budget)
}

// That all leaves are 1.
fn all_leaves(rt: &impl Abort, graph: &mut Graph, count: u32) -> Result<Lit, Want> {
    let mut all = Lit::truth(true);
    for number in 0..count {
        let leaf = graph.leaf(number)?;
        all = both(rt, graph, all, leaf)?;
    }
    Ok(all)
}

// Below 2 ^ 14 clauses the sums may be refuted, or the budget spent; but there is no sample.
#[test]
fn sums_of_14_leaves(rt: HostRuntime) -> Result<(), Fail> {
    let alloc = rt.alloc();
    for budget in [0, 1, 2] {
        let found = asked(&rt, alloc, 14, false, budget)?;
        assert!(rt; found == "spent", "{budget} clauses: {found}");
    }
    let found = asked(&rt, alloc, 14, false, 8192)?;
    assert!(rt; found != "sample", "8192 clauses: {found}");
    Ok(())
}

// The sides differ under one assignment alone, which is found with a budget of 2 ^ 13 clauses.
#[test]
fn one_sample_among_8192(rt: HostRuntime) -> Result<(), Fail> {
    let alloc = rt.alloc();
    for budget in [8192, 20000] {
        let found = asked(&rt, alloc, 13, true, budget)?;
        assert!(rt; found == "sample", "{budget} clauses: {found}");
    }
    Ok(())
}
