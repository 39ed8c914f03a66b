//! The clauses of a cone, one part after another.

ghost use Rattle.std.specs.Prelude.{◌≡◌, ℕ, ◌+◌, ◌<◌, ◌≤◌, ◌^◌, ◌++◌, length, OnOk, EachIndex, true};
ghost use Rattle.pe_graph.specs.Literals.{var_of};
ghost use Rattle.pe_graph.specs.Nodes.{AreBelow};
ghost use Rattle.pe_cnf.specs.Cone.{cites, literal_of, node_clauses, gate_clauses, goal_clauses, cited_clauses};
ghost use Rattle.pe_cnf.specs.Marks.{mark_of, entry_of};

use crate::equality::Equality;
use crate::list::ClauseList;
use pe_base::Want;
use pe_graph::{Goal, Graph, Lit, Node};

/// Appends the clauses of the gates of a cone, in node order.
pub fn push_gates(
    list: &mut ClauseList,
    graph: &Graph,
    cone: &[bool],
    numbers: &[u64],
) -> Result<(), Want>
    requires marks { length cone.now ≡ length graph.now }
    requires numbers { length graph.now ≤ length numbers.now }
    requires small { EachIndex numbers.now (λ x. entry_of numbers.now x < 2 ^ 62) }
    ensures { OnOk result (list.new ≡ list.old ++ gate_clauses (mark_of cone.now) (entry_of numbers.now) graph.now (length graph.now)) }
{
    for x in 0..cone.len() {
        if cone[x] {
            push_node(list, x, graph.node(x as u64), numbers)?;
        }
    }
    Ok(())
}

// Appends the clauses of a node.
fn push_node(list: &mut ClauseList, x: usize, node: Node, numbers: &[u64]) -> Result<(), Want>
    requires within { x < length numbers.now }
    requires below { AreBelow x node }
    requires small { EachIndex numbers.now (λ x. entry_of numbers.now x < 2 ^ 62) }
    ensures { OnOk result (list.new ≡ list.old ++ node_clauses (entry_of numbers.now) x node) }
{
    if let Node::And(left, right) = node {
        let output = Lit::of(numbers[x], false);
        let p = literal(numbers, left);
        let q = literal(numbers, right);
        list.push(&[output.complement(), p])?;
        list.push(&[output.complement(), q])?;
        list.push(&[output, p.complement(), q.complement()])?;
    }
    Ok(())
}

/// Appends the clauses that say that the context is 1 and the sides differ.
pub fn push_goal(list: &mut ClauseList, goal: &Goal, numbers: &[u64]) -> Result<(), Want>
    requires ctx { var_of goal.now.ctx < length numbers.now }
    requires a { var_of goal.now.a < length numbers.now }
    requires b { var_of goal.now.b < length numbers.now }
    requires small { EachIndex numbers.now (λ x. entry_of numbers.now x < 2 ^ 62) }
    ensures { OnOk result (list.new ≡ list.old ++ goal_clauses (entry_of numbers.now) goal.now) }
{
    let ctx = literal(numbers, goal.ctx);
    let a = literal(numbers, goal.a);
    let b = literal(numbers, goal.b);
    list.push(&[ctx])?;
    list.push(&[a, b])?;
    list.push(&[a.complement(), b.complement()])?;
    Ok(())
}

/// Appends the clauses that say that the sides of each cited equality are equal.
pub fn push_cited(list: &mut ClauseList, cited: &[Equality], numbers: &[u64]) -> Result<(), Want>
    requires within { (x : ℕ) → cites cited.now x ≡ true → x < length numbers.now }
    requires small { EachIndex numbers.now (λ x. entry_of numbers.now x < 2 ^ 62) }
    ensures { OnOk result (list.new ≡ list.old ++ cited_clauses (entry_of numbers.now) cited.now) }
{
    for e in cited {
        let a = literal(numbers, e.a);
        let b = literal(numbers, e.b);
        list.push(&[a.complement(), b])?;
        list.push(&[a, b.complement()])?;
    }
    Ok(())
}

// The literal of a node's variable, with the same sign.
fn literal(numbers: &[u64], lit: Lit) -> Lit
    requires within { var_of lit < length numbers.now }
    requires small { EachIndex numbers.now (λ x. entry_of numbers.now x < 2 ^ 62) }
    ensures { result ≡ literal_of (entry_of numbers.now) lit }
{
    Lit::of(numbers[lit.var() as usize], lit.negated())
}
