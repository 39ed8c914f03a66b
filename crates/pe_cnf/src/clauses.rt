//! The clauses of a question.

ghost use Rattle.std.specs.Prelude.{◌≡◌, ◌≢◌, ℕ, ◌+◌, ◌<◌, ◌≤◌, Bool, true, None, [], List, length, take, IfOk};
ghost use Rattle.std.specs.List.{concat};
ghost use Rattle.pe_graph.specs.declared.graph.Node.{Node};
ghost use Rattle.pe_graph.specs.Nodes.{value_in, IsGraph};
ghost use Rattle.pe_graph.specs.declared.job.Goal.{Goal as Asked};
ghost use Rattle.pe_cnf.specs.declared.equality.Equality.{Equality as Cited};
ghost use Rattle.pe_cnf.specs.Clause.{clause_at, IsBelow, AllBelow, Satisfies};
ghost use Rattle.pe_cnf.specs.Meaning.{AreTrue};
ghost use Rattle.pe_cnf.specs.ClauseSet.{ClauseSet};
ghost use Rattle.pe_cnf.specs.Sound.{IsSound};
ghost use Rattle.pe_cnf.specs.Gates.{IsGated, gate_count};
ghost use Rattle.pe_cnf.specs.Forced.{AgreeAtLeaves, AreForced, IsForcing};
ghost use Rattle.pe_cnf.specs.Cone.{IsConeOf, HasGoal, HasCited};

use crate::equality::Equality;
use crate::gates::{push_cited, push_gates, push_goal};
use crate::leaves::cone_leaves;
use crate::list::ClauseList;
use crate::marks::{mark_cone, number_nodes};
use pe_base::Want;
use pe_graph::{Goal, Job, Lit};
use sqlite_items::Items;
use std::alloc::Global;
use std::marker::Model;

/// Clauses by their numbers, and what they tell of the cone that they were made from.
#[derive(Drop)]
pub struct Clauses {
    list: ClauseList,
    vars: u64,
    leaves: Vec<(u32, u64)>,
    width: u32,
    goal: Option<Goal>,
    gates: u64,
}

impl Model for Clauses {
    ghost use Rattle.pe_cnf.specs.ClauseSet.{ClauseSet};
    ghost use Rattle.pe_cnf.specs.Sound.{IsSound};

    ghost Value = { ClauseSet };

    ghost view = { λ s. record { clauses = s.list; vars = s.vars; leaves = s.leaves.items; width = s.width; goal = s.goal; gates = s.gates } };

    ghost invariant = { λ s. IsSound (record { clauses = s.list; vars = s.vars; leaves = s.leaves.items; width = s.width; goal = s.goal; gates = s.gates }) };
}

impl Clauses {
    /// Just these clauses, of no cone.
    pub fn from_lists(alloc: Global, lists: &[Items<Lit>]) -> Result<Clauses, Want>
        ensures clauses { IfOk result (λ set. set.clauses ≡ lists.now) }
        ensures leaves { IfOk result (λ set. set.leaves ≡ []) }
        ensures width { IfOk result (λ set. set.width ≡ 0) }
        ensures goal { IfOk result (λ set. set.goal ≡ None) }
        ensures gates { IfOk result (λ set. set.gates ≡ 0) }
    {
        let mut list = ClauseList::new(alloc);
        let mut vars = 0;
        for clause in lists {
            list.push(clause.as_slice())?;
            vars = vars.max(above(clause.as_slice()));
        }
        Ok(Clauses {
            list,
            vars,
            leaves: Vec::new(alloc),
            width: 0,
            goal: None,
            gates: 0,
        })
    }

    /// What holds of each: its variables are below `vars`, and with a goal it begins with gates.
    pub fn clauses_law(&self)
        ensures { IsSound self.now }
    {
        let _vars = &self.vars;
    }

    /// How many clauses there are.
    pub fn count(&self) -> u64
        ensures { result ≡ length self.now.clauses }
    {
        self.list.count()
    }

    /// A number above each variable of the clauses. After `cone` it is the number of variables.
    pub fn vars(&self) -> u64
        ensures vars { result ≡ self.now.vars }
        ensures above { AllBelow result self.now.clauses }
    {
        self.vars
    }

    /// The clause of a number, lent as it is stored.
    pub fn clause(&self, id: u64) -> &[Lit]
        requires { id < length self.now.clauses }
        ensures { result.now ≡ clause_at self.now.clauses id }
    {
        self.list.clause(id)
    }

    /// All literals, one clause behind the other.
    pub fn flat(&self) -> &[Lit]
        ensures { result.now ≡ concat self.now.clauses }
    {
        self.list.flat()
    }

    /// The leaves of the cone by rising number, each with its variable.
    pub fn leaves(&self) -> &[(u32, u64)]
        ensures { result.now ≡ self.now.leaves }
    {
        &self.leaves
    }

    /// How many leaves the job has.
    pub fn width(&self) -> u32
        ensures { result ≡ self.now.width }
    {
        self.width
    }

    /// The goal whose cone it is.
    pub fn goal(&self) -> Option<Goal>
        ensures { result ≡ self.now.goal }
    {
        self.goal
    }

    /// How many clauses stand before the unit clause of the goal's context.
    pub fn gates(&self) -> u64
        ensures { result ≡ self.now.gates }
    {
        self.gates
    }
}

/// The clauses of the cone of a goal in the graph of a job, with those of the equalities that are cited: the constant's
/// unit clause; three for each gate of the cone, in node order; that the context is 1; two that say that the sides
/// differ; and two for each cited equality, in order.
pub fn cone(alloc: Global, job: &Job, goal: Goal, cited: &[Equality]) -> Result<Clauses, Want>
    requires goal { HasGoal job.now.graph goal }
    requires cited { HasCited job.now.graph cited.now }
    ensures { IfOk result (λ set. IsConeOf job.now.graph goal (length job.now.leaves) cited.now set) }
{
    let graph = &job.graph;
    let width = job.leaves.len() as u32;
    graph.graph_law();
    let marks = mark_cone(alloc, graph, &goal)?;
    let marks = marks.as_slice();
    let numbers = number_nodes(alloc, marks, cited)?;
    let numbers = numbers.as_slice();
    let leaves = cone_leaves(alloc, graph, marks, numbers, width)?;
    let mut list = ClauseList::new(alloc);
    list.push(&[Lit::truth(true)])?;
    push_gates(&mut list, graph, marks, numbers)?;
    let gates = list.count();
    push_goal(&mut list, &goal, numbers)?;
    push_cited(&mut list, cited, numbers)?;
    Ok(Clauses {
        list,
        vars: numbers[marks.len()],
        leaves,
        width,
        goal: Some(goal),
        gates,
    })
}

// A number above each variable of the clause.
fn above(clause: &[Lit]) -> u64
    ensures { IsBelow result clause.now }
{
    let mut vars = 0;
    for l in clause {
        vars = vars.max(l.code() / 2 + 1);
    }
    vars
}

/// What the clauses of a cone say: where the context is 1, the sides differ and the cited equalities are true, some
/// assignment of the variables makes each clause true.
pub fn cone_law()
    ensures { (nodes : List Node) (goal : Asked) (width : ℕ) (cited : List Cited) (set : ClauseSet) (v : ℕ → Bool) → IsGraph nodes → HasGoal nodes goal → HasCited nodes cited → IsConeOf nodes goal width cited set → AreTrue nodes goal.ctx cited → value_in v nodes goal.ctx ≡ true → value_in v nodes goal.a ≢ value_in v nodes goal.b → (w : ℕ → Bool) × Satisfies w set.clauses }
{}

/// What an assignment of the variables tells that makes the clauses of a cone's gates and of its goal true: an assignment
/// of the job's leaves that gives those of the cone the same values makes the context 1 and the sides different.
pub fn counterexample_law()
    ensures { (nodes : List Node) (goal : Asked) (width : ℕ) (cited : List Cited) (set : ClauseSet) (w v : ℕ → Bool) → IsGraph nodes → HasGoal nodes goal → IsConeOf nodes goal width cited set → AgreeAtLeaves w v set.leaves → Satisfies w (take (set.gates + 3) set.clauses) → (value_in v nodes goal.ctx ≡ true) × (value_in v nodes goal.a ≢ value_in v nodes goal.b) }
{}

/// What the clauses of gates force, in clause order: the values of the leaves force those of the constant and of the first
/// gates, and where both inputs of a gate have values, one of its clauses forces a literal of its output.
pub fn forced_law()
    ensures values { (set : ClauseSet) (n : ℕ) → IsGated set → n ≤ gate_count set → AreForced set n }
    ensures units { (set : ClauseSet) (g : ℕ) → IsGated set → g < gate_count set → IsForcing set g }
{}
