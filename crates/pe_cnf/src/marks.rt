//! Which nodes are in a cone, and the number of the variable of each.

ghost use Rattle.std.specs.Prelude.{◌≡◌, ℕ, ◌+◌, ◌<◌, ◌==◌, ◌||◌, ◌↔◌, true, ◌^◌, length, IfOk, EachIndex};
ghost use Rattle.pe_graph.specs.Nodes.{AreBelow};
ghost use Rattle.pe_cnf.specs.Cone.{InCone, HasGoal, cites, is_used};
ghost use Rattle.pe_cnf.specs.Marks.{mark_of, entry_of, names, Spreads, AreNumbers};

use crate::equality::Equality;
use pe_base::Want;
use pe_graph::{Goal, Graph, Node};
use sqlite_items::Items;
use std::alloc::Global;

/// Which nodes are in the cone of the goal.
pub fn mark_cone(alloc: Global, graph: &Graph, goal: &Goal) -> Result<Items<bool>, Want>
    requires { HasGoal graph.now goal.now }
    ensures room { IfOk result (λ marks. length marks ≡ length graph.now) }
    ensures marked { IfOk result (λ marks. (x : ℕ) → (mark_of marks x ≡ true) ↔ InCone graph.now goal.now x) }
{
    let mut marks = Items::from_vec(vec![in alloc; false; graph.nodes() as usize]?);
    mark(&mut marks, goal.ctx.var());
    mark(&mut marks, goal.a.var());
    mark(&mut marks, goal.b.var());
    spread(graph, &mut marks);
    Ok(marks)
}

/// How many used nodes stand before each node, and before the end.
pub fn number_nodes(alloc: Global, cone: &[bool], cited: &[Equality]) -> Result<Vec<u64>, Want>
    requires some { 0 < length cone.now }
    requires few { length cone.now < 2 ^ 62 }
    requires within { (x : ℕ) → cites cited.now x ≡ true → x < length cone.now }
    ensures small { IfOk result (λ numbers. EachIndex numbers.items (λ x. entry_of numbers.items x < 2 ^ 62)) }
    ensures numbers { IfOk result (λ numbers. AreNumbers (is_used (mark_of cone.now) cited.now) (length cone.now) numbers.items) }
{
    let used = mark_used(alloc, cone, cited)?;
    let mut numbers = Vec::new(alloc);
    let mut before = 0;
    for is_used in used.as_slice() {
        numbers.push(before)?;
        if *is_used {
            before += 1;
        }
    }
    numbers.push(before)?;
    Ok(numbers)
}

// Marks what the marked nodes reach.
fn spread(graph: &Graph, marks: &mut Items<bool>)
    requires { length marks.old ≡ length graph.now }
    ensures room { length marks.new ≡ length marks.old }
    ensures spread { Spreads graph.now 0 (mark_of marks.old) (mark_of marks.new) }
{
    let mut left = marks.len();
    while left > 0 {
        left -= 1;
        if marks.as_slice()[left] {
            mark_inputs(marks, graph.node(left as u64));
        }
    }
}

// The nodes that have variables.
fn mark_used(alloc: Global, cone: &[bool], cited: &[Equality]) -> Result<Items<bool>, Want>
    requires some { 0 < length cone.now }
    requires within { (x : ℕ) → cites cited.now x ≡ true → x < length cone.now }
    ensures room { IfOk result (λ marks. length marks ≡ length cone.now) }
    ensures marked { IfOk result (λ marks. (x : ℕ) → mark_of marks x ≡ is_used (mark_of cone.now) cited.now x) }
{
    let mut marks = Items::from_slice(alloc, cone)?;
    mark(&mut marks, 0);
    for e in cited {
        mark(&mut marks, e.b.var());
        mark(&mut marks, e.a.var());
    }
    Ok(marks)
}

// Marks the inputs of a gate.
fn mark_inputs(marks: &mut Items<bool>, node: Node)
    requires { AreBelow (length marks.old) node }
    ensures room { length marks.new ≡ length marks.old }
    ensures marked { (y : ℕ) → mark_of marks.new y ≡ (names node y || mark_of marks.old y) }
{
    if let Node::And(p, q) = node {
        mark(marks, q.var());
        mark(marks, p.var());
    }
}

// Marks one node.
fn mark(marks: &mut Items<bool>, x: u64)
    requires { x < length marks.old }
    ensures room { length marks.new ≡ length marks.old }
    ensures marked { (y : ℕ) → mark_of marks.new y ≡ ((y == x) || mark_of marks.old y) }
{
    marks.set(x as usize, true);
}
