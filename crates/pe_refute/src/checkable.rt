//! Whether an entry can be checked.

ghost use Rattle.std.specs.Prelude.{◌≡◌, ◌↔◌, ◌<◌, Option, Some, IsTrue};
ghost use Rattle.pe_graph.specs.Nodes.{IsIn};
ghost use Rattle.pe_cnf.specs.declared.equality.Equality.{Equality as Seen};
ghost use Rattle.pe_cnf.specs.Cone.{HasGoal};
ghost use Rattle.pe_refute.specs.Entries.{goal_of, AreSeenIn};

use crate::entry::Entry;
use pe_cnf::{Equality, Goal, is_askable};
use pe_graph::{Graph, Job};

/// Whether the literals of the entry's equality and of those that are seen are of the job's graph, as `checked` requires:
/// for a caller that cannot know it.
pub fn is_checkable(job: &Job, seen: &[Option<Equality>], entry: &Entry) -> bool
    ensures entry { IsTrue result → HasGoal job.now.graph (goal_of 0 entry.now.eq) }
    ensures seen { IsTrue result → AreSeenIn job.now.graph seen.now }
    ensures only { HasGoal job.now.graph (goal_of 0 entry.now.eq) → AreSeenIn job.now.graph seen.now → IsTrue result }
{
    let goal = Goal {
        ctx: entry.eq.ctx,
        a: entry.eq.a,
        b: entry.eq.b,
        leaves: 0,
    };
    is_askable(job, &goal, &[]) && all_in(&job.graph, seen)
}

// Whether the sides of each equality seen are of the graph.
fn all_in(graph: &Graph, seen: &[Option<Equality>]) -> bool
    ensures { IsTrue result ↔ AreSeenIn graph.now seen.now }
{
    for place in seen {
        if !sides_in(graph, place) {
            return false;
        }
    }
    true
}

// Whether the sides of the equality are, where there is one.
fn sides_in(graph: &Graph, seen: &Option<Equality>) -> bool
    ensures { IsTrue result ↔ ((e : Seen) → seen.now ≡ Some e → (IsIn graph.now e.a) × (IsIn graph.now e.b)) }
{
    match seen {
        None => true,
        Some(e) => e.a.var() < graph.nodes() && e.b.var() < graph.nodes(),
    }
}
