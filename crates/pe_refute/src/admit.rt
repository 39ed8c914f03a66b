//! The check of entries.

ghost use Rattle.std.specs.Prelude.{◌≡◌, ◌<◌, Option, None, Some, All, length, IfOk, MatchOption, MatchResult, map};
ghost use Rattle.std.specs.Arc.{arc_value};
ghost use Rattle.pe_cnf.specs.Clause.{IsBelow, AllBelow};
ghost use Rattle.pe_cnf.specs.Cone.{HasGoal, HasCited};
ghost use Rattle.pe_cnf.specs.Meaning.{AreTrue, Holds};
ghost use Rattle.pe_refute.specs.Chain.{clause_of};
ghost use Rattle.pe_refute.specs.Evidence.{IsWithin};
ghost use Rattle.pe_refute.specs.Entries.{seen_at, is_lawful, AreLawful, IsFirstUnlawful, cited_of, goal_of, AreSeenIn, IsJudged, IsAccepted, IsRefused};

use crate::checker::first_fault;
use crate::entry::{CheckedEntry, Entry, EntryFault};
use crate::evidence::{Derived, Evidence};
use crate::scratch::Scratch;
use pe_base::Want;
use pe_cnf::{Equality, Goal, cone};
use pe_graph::{Job, Lit};
use sqlite_items::Items;
use std::alloc::Global;
use std::sync::Arc;

/// The check of an entry of a job, against the equalities that are seen, by place.
pub fn checked(
    alloc: Global,
    job: &Arc<Job, Global>,
    seen: &[Option<Equality>],
    entry: Entry,
) -> Result<CheckedEntry, EntryFault>
    requires entry { HasGoal (arc_value job.now).graph (goal_of 0 entry.eq) }
    requires seen { AreSeenIn (arc_value job.now).graph seen.now }
    ensures { MatchResult result (IsAccepted (arc_value job.now) seen.now entry) (IsRefused (arc_value job.now) seen.now entry) }
{
    if let Some(place) = first_unlawful(seen, &entry) {
        return Err(EntryFault::BadCite { place });
    }
    match examine(alloc, job, seen, &entry) {
        Err(_) => Err(EntryFault::Memory(entry)),
        Ok((Some(step), _)) => Err(EntryFault::Bad { step }),
        Ok((None, cited)) => match Arc::try_clone(job) {
            Err(_) => Err(EntryFault::Memory(entry)),
            Ok(job) => Ok(CheckedEntry { job, entry, cited }),
        },
    }
}

// The first step at which the evidence is wrong, and the cited equalities.
fn examine(
    alloc: Global,
    job: &Job,
    seen: &[Option<Equality>],
    entry: &Entry,
) -> Result<(Option<u64>, Items<Equality>), Want>
    requires entry { HasGoal job.now.graph (goal_of 0 entry.now.eq) }
    requires seen { AreSeenIn job.now.graph seen.now }
    requires lawful { AreLawful seen.now entry.now.eq.ctx entry.now.cites }
    ensures cited { IfOk result (λ r. r.1 ≡ cited_of seen.now entry.now.cites) }
    ensures judged { IfOk result (λ r. IsJudged job.now.graph (length job.now.leaves) entry.now.eq r.1 entry.now.evidence r.0) }
    ensures proved { IfOk result (λ r. r.0 ≡ None → All (Holds job.now.graph) r.1 → Holds job.now.graph entry.now.eq) }
{
    let cited = gather(alloc, seen, entry.cites.as_slice())?;
    let fault = judge(alloc, job, &entry.eq, cited.as_slice(), &entry.evidence)?;
    Ok((fault, cited))
}

// The first step at which evidence is wrong over the clauses of an equality's cone.
fn judge(
    alloc: Global,
    job: &Job,
    eq: &Equality,
    cited: &[Equality],
    evidence: &Evidence,
) -> Result<Option<u64>, Want>
    requires goal { HasGoal job.now.graph (goal_of 0 eq.now) }
    requires cited { HasCited job.now.graph cited.now }
    ensures judged { IfOk result (IsJudged job.now.graph (length job.now.leaves) eq.now cited.now evidence.now) }
    ensures proved { IfOk result (λ fault. fault ≡ None → AreTrue job.now.graph eq.now.ctx cited.now → Holds job.now.graph eq.now) }
{
    job.graph.graph_law();
    let goal = Goal {
        ctx: eq.ctx,
        a: eq.a,
        b: eq.b,
        leaves: job.leaves.len() as u32,
    };
    let set = cone(alloc, job, goal, cited)?;
    let vars = set.vars().max(vars_of(evidence));
    let mut scratch = Scratch::new(alloc, vars)?;
    Ok(first_fault(&set, evidence, &mut scratch))
}

// The first citation that is not lawful.
fn first_unlawful(seen: &[Option<Equality>], entry: &Entry) -> Option<u32>
    ensures { MatchOption result (AreLawful seen.now entry.now.eq.ctx entry.now.cites) (IsFirstUnlawful seen.now entry.now.eq.ctx entry.now.cites) }
{
    for place in entry.cites.as_slice() {
        if !may_cite(seen, entry.eq.ctx, *place) {
            return Some(*place);
        }
    }
    None
}

// Whether an entry of this context may cite the place.
fn may_cite(seen: &[Option<Equality>], ctx: Lit, place: u32) -> bool
    ensures { result ≡ is_lawful seen.now ctx place }
{
    match equality_at(seen, place) {
        None => false,
        Some(e) => e.ctx == ctx || e.ctx == Lit::truth(true),
    }
}

// The equality that is seen at a place, if one is.
fn equality_at(seen: &[Option<Equality>], place: u32) -> Option<Equality>
    ensures { result ≡ seen_at seen.now place }
{
    if place as usize >= seen.len() {
        return None;
    }
    seen[place as usize]
}

// The equalities at the cited places, in citing order.
fn gather(alloc: Global, seen: &[Option<Equality>], cites: &[u32]) -> Result<Items<Equality>, Want>
    ensures { IfOk result (λ cited. cited ≡ cited_of seen.now cites.now) }
{
    let mut cited = Items::new(alloc);
    for place in cites {
        match equality_at(seen, *place) {
            None => {}
            Some(e) => cited.push(e)?,
        }
    }
    Ok(cited)
}

/// A number above each variable of the evidence: room for a scratch that checks it.
pub fn vars_of(evidence: &Evidence) -> u64
    ensures { IsWithin result evidence.now }
{
    match evidence {
        Evidence::Table => 0,
        Evidence::Chain(chain) => chain_vars(chain),
    }
}

// A number above each variable of the chain's clauses.
fn chain_vars(chain: &[Derived]) -> u64
    ensures { AllBelow result (map clause_of chain.now) }
{
    let mut vars = 0;
    for d in chain {
        vars = vars.max(clause_vars(d.clause.as_slice()));
    }
    vars
}

// A number above each variable of the clause.
fn clause_vars(clause: &[Lit]) -> u64
    ensures { IsBelow result clause.now }
{
    let mut vars = 0;
    for l in clause {
        vars = vars.max(l.code() / 2 + 1);
    }
    vars
}
