ghost use Rattle.pe_solver.specs.Answer.{IsMade};

use pe_base::Want;
use pe_cnf::{Clauses, Goal, is_askable, plain_job};
use pe_graph::{Graph, Job, Leaf, Lit, Node};
use pe_refute::Evidence;
use pe_solver::{Decision, decide, question};
use sqlite_items::Items;
use std::alloc::Global;
use std::process::Abort;
use std::test::Fail;

// `a & b`, of literals of the graph.
pub fn both(rt: &impl Abort, graph: &mut Graph, a: Lit, b: Lit) -> Result<Lit, Want> {
    assert!(rt; a.var() < graph.nodes());
    assert!(rt; b.var() < graph.nodes());
    graph.and(a, b)
}

// The literal that is 1 where one of the two is.
pub fn either(rt: &impl Abort, graph: &mut Graph, a: Lit, b: Lit) -> Result<Lit, Want> {
    Ok(both(rt, graph, a.complement(), b.complement())?.complement())
}

// The literal that is 1 where one of the two is, but not both.
pub fn one_of(rt: &impl Abort, graph: &mut Graph, a: Lit, b: Lit) -> Result<Lit, Want> {
    let all = both(rt, graph, a, b)?;
    let none = both(rt, graph, a.complement(), b.complement())?;
    both(rt, graph, all.complement(), none.complement())
}

// Whether an odd number of these leaves is 1, joined in this order.
pub fn parity(rt: &impl Abort, graph: &mut Graph, count: u32, step: u32) -> Result<Lit, Want> {
    let mut sum = Lit::truth(false);
    for k in 0..count {
        let leaf = graph.leaf(k.wrapping_mul(step) % count.max(1))?;
        sum = one_of(rt, graph, sum, leaf)?;
    }
    Ok(sum)
}

// The carry of the sum of two words: leaves 2 k and 2 k + 1 are their bits k. Either carry is made, from two of the three,
// or from the sum of two; `wrong` leaves out a bit's carry.
pub fn carry(
    rt: &impl Abort,
    graph: &mut Graph,
    bits: u32,
    other: bool,
    wrong: u32,
) -> Result<Lit, Want> {
    let mut carried = Lit::truth(false);
    for k in 0..bits.min(1000) {
        let a = graph.leaf(2 * k)?;
        let b = graph.leaf(2 * k + 1)?;
        let all = both(rt, graph, a, b)?;
        let some = if other {
            one_of(rt, graph, a, b)?
        } else {
            either(rt, graph, a, b)?
        };
        let passed = both(rt, graph, some, carried)?;
        carried = if k == wrong {
            passed
        } else {
            either(rt, graph, all, passed)?
        };
    }
    Ok(carried)
}

// Whether the first of two words is below the second: by the borrow, or by the highest bit in which they differ.
pub fn below(
    rt: &impl Abort,
    graph: &mut Graph,
    bits: u32,
    other: bool,
    wrong: u32,
) -> Result<Lit, Want> {
    let mut less = Lit::truth(false);
    for k in 0..bits.min(1000) {
        let a = graph.leaf(2 * k)?;
        let b = graph.leaf(2 * k + 1)?;
        let here = both(rt, graph, a.complement(), b)?;
        let stays = if other {
            one_of(rt, graph, a, b)?.complement()
        } else {
            either(rt, graph, a.complement(), b)?
        };
        let passed = both(rt, graph, stays, less)?;
        less = if k == wrong {
            passed
        } else {
            either(rt, graph, here, passed)?
        };
    }
    Ok(less)
}

// The job of a graph whose leaves are so many inputs.
pub fn job_of(rt: &impl Abort, alloc: Global, graph: Graph, count: u32) -> Result<Job, Want> {
    let mut leaves = Items::new(alloc);
    for input in 0..count {
        leaves.push(Leaf::Input { cycle: 1, input })?;
    }
    Ok(plain_job(alloc, graph, leaves).expect(rt, "its leaves"))
}

// The value of a literal under the values of the leaves.
fn value(
    rt: &impl Abort,
    alloc: Global,
    graph: &Graph,
    values: &[bool],
    l: Lit,
) -> Result<bool, Want> {
    let mut known: Vec<bool> = Vec::new(alloc);
    for x in 0..graph.nodes() {
        let value = match graph.node(x) {
            Node::True => true,
            Node::Leaf(k) => *values.get(k as usize).expect(rt, "a leaf"),
            Node::And(a, b) => {
                let left = *known.get(a.var() as usize).expect(rt, "an input");
                let right = *known.get(b.var() as usize).expect(rt, "an input");
                left != a.negated() && right != b.negated()
            }
        };
        known.push(value)?;
    }
    Ok(*known.get(l.var() as usize).expect(rt, "a node") != l.negated())
}

// What is decided of the clauses of a goal over so many leaves.
pub fn decided(
    rt: &impl Abort,
    alloc: Global,
    set: &Clauses,
    count: u32,
    budget: u64,
) -> Result<Decision, Want>
    requires { IsMade set.now }
{
    let leaves = set.leaves();
    assert!(rt; leaves.len() <= count as usize);
    decide(alloc, set, count, budget)
}

// What is decided of two literals of a graph. A sample is looked at once more.
pub fn verdict(
    rt: &impl Abort,
    alloc: Global,
    graph: Graph,
    count: u32,
    a: Lit,
    b: Lit,
    budget: u64,
) -> Result<&'static str, Want> {
    let goal = Goal {
        ctx: Lit::truth(true),
        a,
        b,
        leaves: count,
    };
    let job = job_of(rt, alloc, graph, count)?;
    assert!(rt; is_askable(&job, &goal, &[]));
    let set = question(alloc, &job, goal, &[])?;
    match decided(rt, alloc, &set, count, budget)? {
        Decision::Refuted(evidence) => Ok(form(rt, &evidence, budget)),
        Decision::Sample(values) => {
            assert!(rt; values.len() == count as usize);
            let left = value(rt, alloc, &job.graph, &values, a)?;
            assert!(rt; left != value(rt, alloc, &job.graph, &values, b)?);
            Ok("sample")
        }
        Decision::Spent(chain) => {
            assert!(rt; chain.len() as u64 == budget);
            Ok("spent")
        }
    }
}

// The form of the evidence.
fn form(rt: &impl Abort, evidence: &Evidence, budget: u64) -> &'static str {
    match evidence {
        Evidence::Table => "table",
        Evidence::Chain(chain) => {
            assert!(rt; chain.len() as u64 <= budget);
            "chain"
        }
    }
}

#[test]
fn sums_of_leaves(rt: HostRuntime) -> Result<(), Fail> {
    let alloc = rt.alloc();
    let cases = [
        (12, 5, 0, "table"),
        (13, 5, 0, "spent"),
        (13, 5, 1, "spent"),
        (13, 5, 2, "spent"),
        (13, 12, 8192, "chain"),
        (13, 12, 20000, "chain"),
        (14, 13, 20000, "chain"),
    ];
    for (count, step, budget, answer) in cases {
        let mut graph = Graph::new(alloc)?;
        let up = parity(&rt, &mut graph, count, 1)?;
        let other = parity(&rt, &mut graph, count, step)?;
        let found = verdict(&rt, alloc, graph, count, up, other, budget)?;
        assert!(rt;
            found == answer,
            "{count} leaves, {budget} clauses: {found}"
        );
    }
    Ok(())
}

#[test]
fn words_of_16_bits(rt: HostRuntime) -> Result<(), Fail> {
    let alloc = rt.alloc();
    let cases = [(16, "chain"), (0, "sample"), (15, "sample"), (7, "sample")];
    for (wrong, answer) in cases {
        let mut graph = Graph::new(alloc)?;
        let a = carry(&rt, &mut graph, 16, false, 16)?;
        let b = carry(&rt, &mut graph, 16, true, wrong)?;
        let found = verdict(&rt, alloc, graph, 32, a, b, 1000)?;
        assert!(rt; found == answer, "carry {wrong}: {found}");
        let mut graph = Graph::new(alloc)?;
        let a = below(&rt, &mut graph, 16, false, 16)?;
        let b = below(&rt, &mut graph, 16, true, wrong)?;
        let found = verdict(&rt, alloc, graph, 32, a, b, 1000)?;
        assert!(rt; found == answer, "below {wrong}: {found}");
    }
    Ok(())
}
