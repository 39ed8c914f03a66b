ghost use Rattle.std.specs.Prelude.{ℕ, IfOk};
ghost use Rattle.pe_refute.specs.Evidence.{IsWithin};

use pe_base::Want;
use pe_cnf::{Clauses, Equality, Goal, cone, is_askable, plain_job};
use pe_graph::{Graph, Job, Leaf, Lit};
use pe_refute::{
    Derived, Entry, EntryFault, Evidence, Scratch, check, checked, first_fault, is_checkable,
};
use smallvec::SmallVec;
use sqlite_items::Items;
use std::alloc::Global;
use std::process::Abort;
use std::sync::Arc;
use std::test::Fail;

// The chain of the empty clause with these hints.
fn empty_clause(alloc: Global, hints: &[u64]) -> Result<Evidence, Want>
    ensures { IfOk result (λ e. (limit : ℕ) → IsWithin limit e) }
{
    let mut chain = Vec::new(alloc);
    let hints = SmallVec::from_slice(alloc, hints)?;
    chain.push(Derived {
        clause: SmallVec::new(alloc),
        hints,
    })?;
    Ok(Evidence::Chain(chain))
}

// Whether the chain of the empty clause with these hints is good over the clauses.
fn is_good(alloc: Global, set: &Clauses, hints: &[u64]) -> Result<bool, Want> {
    let evidence = empty_clause(alloc, hints)?;
    let mut scratch = Scratch::new(alloc, set.vars())?;
    Ok(check(set, &evidence, &mut scratch))
}

// Whether a table is, which is asked of a goal's cone alone.
fn is_table_good(alloc: Global, set: &Clauses) -> Result<bool, Want> {
    let mut scratch = Scratch::new(alloc, set.vars())?;
    Ok(check(set, &Evidence::Table, &mut scratch))
}

// The first fault of a table for the sum of so many leaves, in two orders, or with its last leaf left out of one.
fn table(rt: &impl Abort, alloc: Global, leaves: u32, whole: bool) -> Result<Option<u64>, Want> {
    let mut graph = Graph::new(alloc)?;
    let mut up = Lit::truth(false);
    for k in 0..leaves {
        let leaf = graph.leaf(k)?;
        up = one_of(rt, &mut graph, up, leaf)?;
    }
    let mut down = Lit::truth(false);
    for k in 0..leaves {
        if whole || k > 0 {
            let leaf = graph.leaf(leaves - 1 - k)?;
            down = one_of(rt, &mut graph, down, leaf)?;
        }
    }
    let goal = Goal {
        ctx: Lit::truth(true),
        a: up,
        b: down,
        leaves,
    };
    let job = job_of(rt, alloc, graph, leaves)?;
    assert!(rt; is_askable(&job, &goal, &[]));
    let set = cone(alloc, &job, goal, &[])?;
    let mut scratch = Scratch::new(alloc, set.vars())?;
    Ok(first_fault(&set, &Evidence::Table, &mut scratch))
}

// The job of a graph whose leaves are so many inputs.
fn job_of(rt: &impl Abort, alloc: Global, graph: Graph, count: u32) -> Result<Job, Want> {
    let mut leaves = Items::new(alloc);
    for input in 0..count {
        leaves.push(Leaf::Input { cycle: 1, input })?;
    }
    Ok(plain_job(alloc, graph, leaves).expect(rt, "its leaves"))
}

// The literals that are 1 where one of the two is, but not both.
fn one_of(rt: &impl Abort, graph: &mut Graph, a: Lit, b: Lit) -> Result<Lit, Want> {
    let all = both(rt, graph, a, b)?;
    let none = both(rt, graph, a.complement(), b.complement())?;
    both(rt, graph, all.complement(), none.complement())
}

// `a & b`, of literals of the graph.
fn both(rt: &impl Abort, graph: &mut Graph, a: Lit, b: Lit) -> Result<Lit, Want> {
    assert!(rt; a.var() < graph.nodes());
    assert!(rt; b.var() < graph.nodes());
    graph.and(a, b)
}

#[test]
fn two_units_that_differ(rt: HostRuntime) -> Result<(), Fail> {
    let alloc = rt.alloc();
    let l = Lit::of(3, false);
    let lists = [
        Items::from_slice(alloc, &[l])?,
        Items::from_slice(alloc, &[l.complement()])?,
    ];
    let set = Clauses::from_lists(alloc, &lists)?;
    let cases: [(&[u64], bool); 6] = [
        (&[0, 1], true),
        (&[1, 0], true),
        (&[0], false),
        (&[0, 0], false),
        (&[0, 1, 1], false),
        (&[0, 2], false),
    ];
    for (hints, good) in cases {
        assert_eq!(rt; is_good(alloc, &set, hints)?, good);
    }
    assert!(rt; !is_table_good(alloc, &set)?);
    Ok(())
}

#[test]
fn tables_of_sums(rt: HostRuntime) -> Result<(), Fail> {
    let alloc = rt.alloc();
    let cases = [
        (2, true, None),
        (2, false, Some(1)),
        (5, true, None),
        (5, false, Some(1)),
        (12, true, None),
        (13, true, Some(4096)),
    ];
    for (leaves, whole, fault) in cases {
        assert!(rt;
            table(&rt, alloc, leaves, whole)? == fault,
            "{leaves} leaves"
        );
    }
    Ok(())
}

// What the check of an entry says.
#[derive(Clone, Copy, Debug, PartialEq, Eq)]
enum Said {
    Good(usize),
    Bad(u64),
    BadCite(u32),
    Outside,
    Memory,
}

fn told(alloc: Global, job: &Arc<Job, Global>, seen: &[Option<Equality>], entry: Entry) -> Said {
    if !is_checkable(job, seen, &entry) {
        return Said::Outside;
    }
    match checked(alloc, job, seen, entry) {
        Ok(kept) => Said::Good(kept.cited.len()),
        Err(EntryFault::Bad { step }) => Said::Bad(step),
        Err(EntryFault::BadCite { place }) => Said::BadCite(place),
        Err(EntryFault::Memory(_)) => Said::Memory,
    }
}

// A chain of clauses, each by the codes of its literals and its hints.
fn chain_of(alloc: Global, steps: &[(&[u64], &[u64])]) -> Result<Evidence, Want> {
    let mut chain = Vec::new(alloc);
    for (codes, hints) in steps {
        let mut clause = SmallVec::new(alloc);
        for code in *codes {
            let code = *code % 64;
            clause.push(Lit::of(code / 2, code % 2 == 1))?;
        }
        let hints = SmallVec::from_slice(alloc, hints)?;
        chain.push(Derived { clause, hints })?;
    }
    Ok(Evidence::Chain(chain))
}

// A job of two leaves, nodes 1 and 2, with node 3 for both of them and node 4 for node 3 and the first leaf.
fn two_leaves(rt: &impl Abort, alloc: Global) -> Result<Arc<Job, Global>, Want> {
    let mut graph = Graph::new(alloc)?;
    let first = graph.leaf(0)?;
    let second = graph.leaf(1)?;
    let all = both(rt, &mut graph, first, second)?;
    both(rt, &mut graph, all, first)?;
    let job = Arc::new(alloc, job_of(rt, alloc, graph, 2)?)?;
    Ok(job)
}

// The equality of two nodes where a third is 1.
fn equal(ctx: u64, a: u64, b: u64) -> Equality {
    Equality {
        ctx: Lit::of(ctx % 64, false),
        a: Lit::of(a % 64, false),
        b: Lit::of(b % 64, false),
    }
}

#[test]
fn entries_that_cite(rt: HostRuntime) -> Result<(), Fail> {
    let alloc = rt.alloc();
    let job = two_leaves(&rt, alloc)?;
    let seen = [Some(equal(0, 3, 4)), None, Some(equal(1, 3, 4))];
    let eq = equal(0, 3, 4);
    let under_first = equal(1, 3, 4);
    let cases: [(Equality, &[u32], Said); 9] = [
        (eq, &[], Said::Good(0)),
        (eq, &[0, 0], Said::Good(2)),
        (eq, &[0, 1], Said::BadCite(1)),
        (eq, &[3], Said::BadCite(3)),
        (eq, &[0, 2, 1], Said::BadCite(2)),
        (under_first, &[2, 0], Said::Good(2)),
        (equal(0, 3, 1), &[], Said::Bad(2)),
        (equal(2, 3, 1), &[0], Said::Good(1)),
        (equal(0, 3, 5), &[], Said::Outside),
    ];
    for (eq, cites, wanted) in cases {
        let entry = Entry {
            eq,
            cites: Items::from_slice(alloc, cites)?,
            evidence: Evidence::Table,
        };
        assert_eq!(rt; told(alloc, &job, &seen, entry), wanted);
    }
    Ok(())
}

#[test]
fn entries_with_chains(rt: HostRuntime) -> Result<(), Fail> {
    let alloc = rt.alloc();
    let job = two_leaves(&rt, alloc)?;
    let seen = [Some(equal(0, 3, 4))];
    let end: (&[u64], &[u64]) = (&[], &[12, 8, 11]);
    let first: (&[u64], &[u64]) = (&[7], &[10, 9]);
    let cases: [(&[(&[u64], &[u64])], &[u32], Said); 6] = [
        (&[first, end], &[0], Said::Good(1)),
        (&[first, end], &[], Said::Bad(0)),
        (&[end, first], &[0], Said::Bad(0)),
        (&[first, (&[], &[12, 11])], &[0], Said::Bad(1)),
        (&[first], &[0], Said::Bad(1)),
        (&[], &[0], Said::Bad(0)),
    ];
    for (steps, cites, wanted) in cases {
        let entry = Entry {
            eq: equal(0, 3, 4),
            cites: Items::from_slice(alloc, cites)?,
            evidence: chain_of(alloc, steps)?,
        };
        assert_eq!(rt; told(alloc, &job, &seen, entry), wanted);
    }
    Ok(())
}

#[test]
fn entry_of_many_leaves(rt: HostRuntime) -> Result<(), Fail> {
    let alloc = rt.alloc();
    for (leaves, wanted) in [(12, Said::Good(0)), (13, Said::Bad(4096))] {
        let mut graph = Graph::new(alloc)?;
        let mut sum = Lit::truth(false);
        for k in 0..leaves {
            let leaf = graph.leaf(k)?;
            sum = one_of(&rt, &mut graph, sum, leaf)?;
        }
        let job = Arc::new(alloc, job_of(&rt, alloc, graph, leaves)?)?;
        let entry = Entry {
            eq: Equality {
                ctx: Lit::truth(true),
                a: sum,
                b: sum,
            },
            cites: Items::new(alloc),
            evidence: Evidence::Table,
        };
        assert_eq!(rt; told(alloc, &job, &[], entry), wanted);
    }
    Ok(())
}
