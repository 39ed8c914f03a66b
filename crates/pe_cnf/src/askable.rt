//! Whether the cone of a goal can be asked for.

ghost use Rattle.std.specs.Prelude.{◌↔◌, ◌<◌, IsTrue};
ghost use Rattle.pe_graph.specs.Nodes.{IsIn};
ghost use Rattle.pe_cnf.specs.Cone.{HasGoal, HasCited};

use crate::equality::Equality;
use pe_graph::{Goal, Graph, Job, Lit};

/// Whether the goal and the cited equalities are of the job's graph, as `cone` requires: for a caller that cannot know it.
pub fn is_askable(job: &Job, goal: &Goal, cited: &[Equality]) -> bool
    ensures goal { IsTrue result → HasGoal job.now.graph goal.now }
    ensures cited { IsTrue result → HasCited job.now.graph cited.now }
    ensures only { HasGoal job.now.graph goal.now → HasCited job.now.graph cited.now → IsTrue result }
{
    has_goal(&job.graph, goal) && has_cited(&job.graph, cited)
}

// Whether the literal is of the graph.
fn has(graph: &Graph, lit: Lit) -> bool
    ensures { IsTrue result ↔ IsIn graph.now lit }
{
    lit.var() < graph.nodes()
}

// Whether the goal's literals are.
fn has_goal(graph: &Graph, goal: &Goal) -> bool
    ensures { IsTrue result ↔ HasGoal graph.now goal.now }
{
    has(graph, goal.ctx) && has(graph, goal.a) && has(graph, goal.b)
}

// Whether the sides of the cited equalities are.
fn has_cited(graph: &Graph, cited: &[Equality]) -> bool
    ensures { IsTrue result ↔ HasCited graph.now cited.now }
{
    for e in cited {
        if !has(graph, e.a) {
            return false;
        }
        if !has(graph, e.b) {
            return false;
        }
    }
    true
}
