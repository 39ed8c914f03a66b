//! Each call once, on a small graph, and a job with one goal and its names.

ghost use Rattle.std.specs.Prelude.{◌≡◌, ◌∷◌, [], IfOk, false, length, map};
ghost use Rattle.std.specs.Arc.{arc_value};
ghost use Rattle.pe_graph.specs.declared.job.Leaf.TheVariants as Leaf;
ghost use Rattle.pe_graph.specs.Nodes.{IsGraph};
ghost use Rattle.pe_graph.specs.Places.{is_live};

use pe_base::{Name, Step, Want};
use pe_graph::{Goal, Graph, Job, Leaf, Lit, Marks, Named, Names, Node, Point, Shown};
use sqlite_items::Items;
use std::alloc::Global;
use std::sync::Arc;
use std::test::Fail;

#[test]
fn a_small_graph(rt: HostRuntime) -> Result<(), Fail> {
    let mut graph = Graph::new(rt.alloc())?;
    let a = graph.leaf(0)?;
    let b = graph.leaf(7)?;
    let both = graph.and(a, b)?;
    let either = graph.or(a, b)?;
    let neither = graph.not(either);
    graph.graph_law();
    // The constant, two leaves, a & b, and ~a & ~b.
    assert_eq!(rt; graph.nodes(), 5);
    assert_eq!(rt; graph.node(0), Node::True);
    assert_eq!(rt; graph.node(2), Node::Leaf(7));
    assert_eq!(rt; graph.node(3), Node::And(a, b));
    assert_eq!(rt; (both.var(), both.negated(), both.code()), (3, false, 6));
    assert_eq!(rt; either.complement(), neither);
    assert_eq!(rt; (graph.lit(6), graph.lit(10)), (Some(both), None));
    assert_eq!(rt; (Lit::of(4, true), Lit::truth(true).code()), (either, 0));
    // The same nodes again.
    assert_eq!(rt; (graph.leaf(7)?, graph.and(b, a)?), (b, both));
    assert_eq!(rt; graph.nodes(), 5);
    Ok(())
}

#[test]
fn values_of_a_small_graph(rt: HostRuntime) -> Result<(), Fail> {
    let mut graph = Graph::new(rt.alloc())?;
    let a = graph.leaf(0)?;
    let b = graph.leaf(1)?;
    let both = graph.and(a, b.complement())?;
    let either = graph.or(a, b)?;
    let cases = [
        ([false, false], (false, false)),
        ([false, true], (false, true)),
        ([true, false], (true, true)),
        ([true, true], (false, true)),
    ];
    for (leaves, expected) in cases {
        let mut marks = Marks::new(rt.alloc(), &graph)?;
        let first = graph.value(both, &leaves, &mut marks);
        let second = graph.value(either, &leaves, &mut marks);
        assert_eq!(rt; (first, second), expected);
    }
    // A leaf beyond the values is 0.
    let mut marks = Marks::new(rt.alloc(), &graph)?;
    assert_eq!(rt; graph.value(either, &[false], &mut marks), false);
    Ok(())
}

/// A job whose one goal says that an input is 1 in the first cycle, and its names.
fn one_goal(alloc: Global) -> Result<Named, Want>
    ensures { IfOk result (λ named. length (arc_value named.job).goals ≡ 1) }
{
    let job = input_job(alloc)?;
    let names = input_names(alloc)?;
    let falsehood = Lit::truth(false);
    let shown = Shown {
        rtl_one: falsehood,
        rtl_zero: falsehood,
        net_one: falsehood,
        net_zero: falsehood,
    };
    let job = Arc::new(alloc, job)?;
    let points = Items::from_slice(alloc, &[(Step::Start(0), Point::Output(0))])?;
    let shown = Items::from_slice(alloc, &[shown])?;
    Ok(Named::with(job, points, shown, names))
}

fn input_job(alloc: Global) -> Result<Job, Want>
    ensures graph { IfOk result (λ job. IsGraph job.graph) }
    ensures leaves { IfOk result (λ job. job.leaves ≡ Leaf.Input 1 0 ∷ []) }
    ensures count { IfOk result (λ job. length job.goals ≡ 1) }
    ensures goals { IfOk result (λ job. map is_live job.goals ≡ false ∷ []) }
{
    let mut graph = Graph::new(alloc)?;
    let input = graph.leaf(0)?;
    graph.graph_law();
    let truth = Lit::truth(true);
    let goal = Goal {
        ctx: truth,
        a: input,
        b: truth,
        leaves: 1,
    };
    let leaves = Items::from_slice(alloc, &[Leaf::Input { cycle: 1, input: 0 }])?;
    let goals = Items::from_slice(alloc, &[goal])?;
    Ok(Job::with(graph, leaves, goals))
}

fn input_names(alloc: Global) -> Result<Names, Want>
    ensures rows { IfOk result (λ names. length names.rows ≡ 1) }
    ensures inputs { IfOk result (λ names. length names.inputs ≡ 1) }
    ensures outputs { IfOk result (λ names. length names.outputs ≡ 1) }
    ensures registers { IfOk result (λ names. (names.registers ≡ []) × (names.shadows ≡ [])) }
{
    Ok(Names {
        rows: one_name(alloc, b"ON")?,
        roots: Items::new(alloc),
        inputs: one_name(alloc, b"a")?,
        outputs: one_name(alloc, b"y")?,
        rtl: Items::new(alloc),
        net: Items::new(alloc),
        registers: Items::new(alloc),
        shadows: Items::new(alloc),
    })
}

fn one_name(alloc: Global, name: &[u8]) -> Result<Items<Name>, Want>
    ensures { IfOk result (λ names. length names ≡ 1) }
{
    let name = Name::new(alloc, name)?;
    let mut names = Items::new(alloc);
    names.push(name)?;
    Ok(names)
}

#[test]
fn names_of_a_small_job(rt: HostRuntime) -> Result<(), Fail> {
    let named = one_goal(rt.alloc())?;
    assert_eq!(rt;
        named.names.as_slice(),
        [(Step::Start(0), Point::Output(0))].as_slice()
    );
    assert_eq!(rt; named.job.goals.len(), 1);
    assert_eq!(rt;
        named.job.leaves.as_slice(),
        [Leaf::Input { cycle: 1, input: 0 }].as_slice()
    );
    assert_eq!(rt; Job::new(rt.alloc())?.goals.len(), 0);
    Ok(())
}
