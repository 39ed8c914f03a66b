//! Questions as `decide` takes them.

ghost use Rattle.std.specs.Prelude.{length, IfOk};
ghost use Rattle.pe_cnf.specs.Cone.{IsConeOf, HasGoal, HasCited};
ghost use Rattle.pe_solver.specs.Answer.{IsMade};

use pe_base::Want;
use pe_cnf::{Clauses, Equality, Goal, cone};
use pe_graph::Job;
use std::alloc::Global;

/// The clauses of the cone of a goal of a job, with those of the cited equalities, for `decide`.
pub fn question(alloc: Global, job: &Job, goal: Goal, cited: &[Equality]) -> Result<Clauses, Want>
    requires goal { HasGoal job.now.graph goal }
    requires cited { HasCited job.now.graph cited.now }
    ensures cone { IfOk result (IsConeOf job.now.graph goal (length job.now.leaves) cited.now) }
    ensures made { IfOk result IsMade }
{
    job.graph.graph_law();
    let set = cone(alloc, job, goal, cited)?;
    Ok(set)
}
