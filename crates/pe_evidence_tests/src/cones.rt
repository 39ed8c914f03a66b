use pe_base::Want;
use pe_cnf::{ClauseList, Clauses, Equality, Goal, cone, is_askable, plain_job};
use pe_graph::{Graph, Job, Leaf, Lit};
use sqlite_items::Items;
use std::alloc::Global;
use std::process::Abort;
use std::test::Fail;

// `a & b`, of literals of the graph.
fn both(rt: &impl Abort, graph: &mut Graph, a: Lit, b: Lit) -> Result<Lit, Want> {
    assert!(rt; a.var() < graph.nodes());
    assert!(rt; b.var() < graph.nodes());
    graph.and(a, b)
}

// The literals that are 1 where one of the two is, but not both.
fn one_of(rt: &impl Abort, graph: &mut Graph, a: Lit, b: Lit) -> Result<Lit, Want> {
    let all = both(rt, graph, a, b)?;
    let none = both(rt, graph, a.complement(), b.complement())?;
    both(rt, graph, all.complement(), none.complement())
}

// The job of the graph, if its leaves are so many inputs.
fn job_of(alloc: Global, graph: Graph, count: u32) -> Result<Option<Job>, Want> {
    let mut leaves = Items::new(alloc);
    for input in 0..count {
        leaves.push(Leaf::Input { cycle: 1, input })?;
    }
    Ok(plain_job(alloc, graph, leaves))
}

// The clause of each number is the row, and the flat list has the rows one behind the other.
fn same(rt: &impl Abort, set: &Clauses, rows: &[&[u64]]) {
    assert!(rt; set.count() == rows.len() as u64);
    let flat = set.flat();
    let mut at = 0usize;
    for (id, row) in rows.iter().enumerate() {
        assert!(rt; (id as u64) < set.count());
        let clause = set.clause(id as u64);
        assert!(rt; clause.len() == row.len(), "clause {id}");
        for (i, code) in row.iter().enumerate() {
            assert!(rt; i < clause.len());
            assert!(rt; clause[i].code() == *code, "clause {id}");
            assert!(rt; at < flat.len());
            assert!(rt; flat[at].code() == *code, "flat {at}");
            at += 1;
        }
    }
    assert!(rt; at == flat.len());
}

#[test]
fn cone_of_six_gates(rt: HostRuntime) -> Result<(), Fail> {
    let alloc = rt.alloc();
    let mut graph = Graph::new(alloc)?;
    let _unused = graph.leaf(3)?;
    let x = graph.leaf(2)?;
    let y = graph.leaf(0)?;
    let z = graph.leaf(1)?;
    let first = one_of(&rt, &mut graph, x, y)?;
    let sum = one_of(&rt, &mut graph, z, first)?;
    let carry = both(&rt, &mut graph, x, y)?;
    let _passed = graph.leaf(4)?;
    let seen = graph.leaf(5)?;
    let goal = Goal {
        ctx: x,
        a: sum,
        b: carry,
        leaves: 3,
    };
    let cited = [Equality {
        ctx: Lit::truth(true),
        a: seen,
        b: sum.complement(),
    }];
    let job = job_of(alloc, graph, 6)?.ok_or("its leaves")?;
    assert!(rt; is_askable(&job, &goal, &cited));
    let set = cone(alloc, &job, goal, &cited)?;
    let rows: [&[u64]; 24] = [
        &[0],
        &[9, 2],
        &[9, 4],
        &[8, 3, 5],
        &[11, 3],
        &[11, 5],
        &[10, 2, 4],
        &[13, 9],
        &[13, 11],
        &[12, 8, 10],
        &[15, 6],
        &[15, 12],
        &[14, 7, 13],
        &[17, 7],
        &[17, 13],
        &[16, 6, 12],
        &[19, 15],
        &[19, 17],
        &[18, 14, 16],
        &[2],
        &[18, 8],
        &[19, 9],
        &[21, 19],
        &[20, 18],
    ];
    same(&rt, &set, &rows);
    assert_eq!(rt; set.vars(), 11);
    assert_eq!(rt; set.gates(), 19);
    assert_eq!(rt; set.width(), 6);
    assert!(rt; set.goal() == Some(goal));
    assert!(rt; set.leaves() == [(0, 2), (1, 3), (2, 1)].as_slice());
    Ok(())
}

#[test]
fn just_these_lists(rt: HostRuntime) -> Result<(), Fail> {
    let alloc = rt.alloc();
    let l = Lit::of(4, true);
    let lists = [
        Items::from_slice(alloc, &[l, Lit::truth(true)])?,
        Items::new(alloc),
    ];
    let set = Clauses::from_lists(alloc, &lists)?;
    let rows: [&[u64]; 2] = [&[9, 0], &[]];
    same(&rt, &set, &rows);
    assert_eq!(rt; set.vars(), 5);
    assert!(rt; set.goal().is_none());
    let mut list = ClauseList::new(alloc);
    list.push(&[l])?;
    assert_eq!(rt; list.count(), 1);
    Ok(())
}

#[test]
fn what_can_be_asked(rt: HostRuntime) -> Result<(), Fail> {
    let alloc = rt.alloc();
    for (count, made) in [(0, false), (1, false), (2, true), (3, false)] {
        let mut graph = Graph::new(alloc)?;
        graph.leaf(1)?;
        graph.leaf(0)?;
        assert!(rt;
            job_of(alloc, graph, count)?.is_some() == made,
            "{count} leaves"
        );
    }
    let mut graph = Graph::new(alloc)?;
    let a = graph.leaf(0)?;
    let job = job_of(alloc, graph, 1)?.ok_or("its leaf")?;
    let last = Lit::of(2, false);
    for (b, asked) in [(a, true), (last, false)] {
        let goal = Goal {
            ctx: Lit::truth(true),
            a,
            b,
            leaves: 1,
        };
        assert!(rt; is_askable(&job, &goal, &[]) == asked);
    }
    Ok(())
}
