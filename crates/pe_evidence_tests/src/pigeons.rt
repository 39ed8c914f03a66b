//! That each pigeon sits in a hole, and no two in one: with fewer holes than pigeons it cannot be.

use crate::searches::{both, either, verdict};
use pe_base::Want;
use pe_graph::{Graph, Lit};
use std::alloc::Global;
use std::process::Abort;
use std::test::Fail;

// That the pigeon sits in the hole: a leaf.
fn sits(graph: &mut Graph, holes: u32, pigeon: u32, hole: u32) -> Result<Lit, Want> {
    graph.leaf(pigeon.wrapping_mul(holes).wrapping_add(hole))
}

// That each pigeon sits in some hole.
fn all_sit(rt: &impl Abort, graph: &mut Graph, pigeons: u32, holes: u32) -> Result<Lit, Want> {
    let mut all = Lit::truth(true);
    for pigeon in 0..pigeons {
        let mut some = Lit::truth(false);
        for hole in 0..holes {
            let here = sits(graph, holes, pigeon, hole)?;
            some = either(rt, graph, some, here)?;
        }
        all = both(rt, graph, all, some)?;
    }
    Ok(all)
}

// That some hole has two pigeons.
fn two_share(rt: &impl Abort, graph: &mut Graph, pigeons: u32, holes: u32) -> Result<Lit, Want> {
    let mut some = Lit::truth(false);
    for hole in 0..holes {
        for second in 0..pigeons {
            for first in 0..second {
                let a = sits(graph, holes, first, hole)?;
                let b = sits(graph, holes, second, hole)?;
                let clash = both(rt, graph, a, b)?;
                some = either(rt, graph, some, clash)?;
            }
        }
    }
    Ok(some)
}

// That all sit, and no two in one hole.
pub fn all_alone(
    rt: &impl Abort,
    graph: &mut Graph,
    pigeons: u32,
    holes: u32,
) -> Result<Lit, Want> {
    let all = all_sit(rt, graph, pigeons, holes)?;
    let shared = two_share(rt, graph, pigeons, holes)?;
    both(rt, graph, all, shared.complement())
}

// What is decided of so many pigeons, in a job of so many leaves: those beyond the pigeons' are in no cone.
fn asked(
    rt: &impl Abort,
    alloc: Global,
    pigeons: u32,
    holes: u32,
    leaves: u32,
    budget: u64,
) -> Result<&'static str, Want> {
    let mut graph = Graph::new(alloc)?;
    for number in 0..leaves {
        graph.leaf(number)?;
    }
    let all = all_alone(rt, &mut graph, pigeons, holes)?;
    verdict(rt, alloc, graph, leaves, all, Lit::truth(false), budget)
}

#[test]
fn one_hole_too_few(rt: HostRuntime) -> Result<(), Fail> {
    let alloc = rt.alloc();
    let cases = [
        (3, 2, 6, 0, "table"),
        (4, 3, 12, 0, "table"),
        (4, 3, 13, 20000, "chain"),
        (5, 4, 20, 20000, "chain"),
    ];
    for (pigeons, holes, leaves, budget, answer) in cases {
        let found = asked(&rt, alloc, pigeons, holes, leaves, budget)?;
        assert!(rt;
            found == answer,
            "{pigeons} in {holes}, {budget} clauses: {found}"
        );
    }
    Ok(())
}

#[test]
fn as_many_holes(rt: HostRuntime) -> Result<(), Fail> {
    let alloc = rt.alloc();
    let cases = [
        (1, 1, 0),
        (2, 4, 0),
        (3, 9, 0),
        (3, 13, 8192),
        (4, 16, 65536),
    ];
    for (count, leaves, budget) in cases {
        let found = asked(&rt, alloc, count, count, leaves, budget)?;
        assert!(rt; found == "sample", "{count} in {count}: {found}");
    }
    Ok(())
}

// Before the empty clause at least two others stand: no value of one leaf or of one gate leads to a conflict with no
// further choice.
#[test]
fn budgets_for_four_pigeons(rt: HostRuntime) -> Result<(), Fail> {
    let alloc = rt.alloc();
    let cases = [
        (13, 0, "spent"),
        (13, 1, "spent"),
        (13, 2, "spent"),
        (13, 8192, "chain"),
        (14, 0, "spent"),
        (14, 1, "spent"),
        (14, 2, "spent"),
        (14, 8192, "chain"),
        (14, 20000, "chain"),
    ];
    for (leaves, budget, answer) in cases {
        let found = asked(&rt, alloc, 4, 3, leaves, budget)?;
        assert!(rt;
            found == answer,
            "{leaves} leaves, {budget} clauses: {found}"
        );
    }
    Ok(())
}
