//! Clauses that follow, without what is idle.
//!
//! Where a clause follows along its hints, a hint is idle exactly where no later hint's clause has the complement of its
//! unit, and a literal exactly where no hint's clause has it. So what is idle is found in one pass forward over the
//! hints and one pass back.

ghost use Rattle.std.specs.Prelude.{◌≡◌, ℕ, ◌<◌, ◌||◌, ◌&&◌, Bool, IfOk, IfSome, IfNone};
ghost use Rattle.pe_cnf.specs.Clause.{AllBelow, IsBelow, has};
ghost use Rattle.pe_refute.specs.Follow.{denied};
ghost use Rattle.pe_refute.specs.Known.{knows_of};
ghost use Rattle.pe_solver.specs.Walk.{Leads, Walks};
ghost use Rattle.pe_solver.specs.Lean.{HasShape, IsTrace, Tight, mentions, IsDistinct, IsRefined};

use crate::finding::{Finding, Trace};
use crate::store::Store;
use pe_base::Want;
use pe_graph::Lit;
use pe_refute::{Effect, Scratch, look};
use std::alloc::Global;

/// What is left of the clause and the hints where the hints lead from the clause's negation to a conflict: those that
/// give nothing new are passed over, and nothing idle stays. Where they lead to none, the scratch knows what a walk along
/// all of them makes known.
pub fn refine(
    alloc: Global,
    all: &Store,
    clause: &[Lit],
    hints: &[u64],
    scratch: &mut Scratch,
) -> Result<Option<Finding>, Want>
    requires clauses { AllBelow scratch.old.vars all.now }
    requires clause { IsBelow scratch.old.vars clause.now }
    ensures refined { IfOk result (λ r. IfSome r (IsRefined all.now clause.now)) }
    ensures none { IfOk result (λ r. IfNone r (Leads all.now (denied clause.now) hints.now → ⊥)) }
    ensures ended { IfOk result (λ r. IfNone r (Walks all.now (denied clause.now) hints.now (knows_of scratch.new))) }
    ensures room { scratch.new.vars ≡ scratch.old.vars }
{
    deny(clause, scratch);
    match walk(alloc, all, hints, scratch)? {
        None => Ok(None),
        Some(trace) => {
            let hints = prune(alloc, all, &trace, scratch)?;
            let some = known_ones(alloc, clause, scratch)?;
            let clause = each_once(alloc, &some, scratch)?;
            Ok(Some(Finding { clause, hints }))
        }
    }
}

// Makes known what the clause's negation makes true.
fn deny(clause: &[Lit], scratch: &mut Scratch)
    requires { IsBelow scratch.old.vars clause.now }
    ensures known { (m : ℕ) → knows_of scratch.new m ≡ denied clause.now m }
    ensures room { scratch.new.vars ≡ scratch.old.vars }
{
    scratch.begin();
    for l in clause {
        scratch.mark(l.complement());
    }
}

// Walks along the hints as far as a conflict, past those that give nothing new.
fn walk(
    alloc: Global,
    all: &Store,
    hints: &[u64],
    scratch: &mut Scratch,
) -> Result<Option<Trace>, Want>
    requires { AllBelow scratch.old.vars all.now }
    ensures shape { IfOk result (λ r. IfSome r (HasShape all.now)) }
    ensures trace { IfOk result (λ r. IfSome r (IsTrace all.now (knows_of scratch.old))) }
    ensures none { IfOk result (λ r. IfNone r (Leads all.now (knows_of scratch.old) hints.now → ⊥)) }
    ensures ended { IfOk result (λ r. IfNone r (Walks all.now (knows_of scratch.old) hints.now (knows_of scratch.new))) }
    ensures room { scratch.new.vars ≡ scratch.old.vars }
{
    let mut kept = Vec::new(alloc);
    let mut units = Vec::new(alloc);
    for h in hints {
        if *h < all.count() {
            match look(scratch, all.clause(*h)) {
                Effect::Neither => {}
                Effect::Conflict => {
                    return Ok(Some(Trace {
                        hints: kept,
                        units,
                        last: *h,
                    }));
                }
                Effect::Unit(l) => {
                    scratch.mark(l);
                    kept.push(*h)?;
                    units.push(l)?;
                }
            }
        }
    }
    Ok(None)
}

// Marks each literal of the clause.
pub fn mark_all(clause: &[Lit], scratch: &mut Scratch)
    requires { IsBelow scratch.old.vars clause.now }
    ensures known { (m : ℕ) → knows_of scratch.new m ≡ (has clause.now m || knows_of scratch.old m) }
    ensures room { scratch.new.vars ≡ scratch.old.vars }
{
    for l in clause {
        scratch.mark(*l);
    }
}

// Those hints of the trace whose unit is used by a later one. The scratch knows what literals they mention.
fn prune(alloc: Global, all: &Store, trace: &Trace, scratch: &mut Scratch) -> Result<Vec<u64>, Want>
    requires clauses { AllBelow scratch.old.vars all.now }
    requires shape { HasShape all.now trace.now }
    ensures tight { IfOk result (λ v. (k : ℕ → Bool) → IsTrace all.now k trace.now → Tight all.now k v.items) }
    ensures mentions { IfOk result (λ v. (l : ℕ) → knows_of scratch.new l ≡ mentions all.now v.items l) }
    ensures room { scratch.new.vars ≡ scratch.old.vars }
{
    let mut kept = Vec::new(alloc);
    scratch.begin();
    mark_all(all.clause(trace.last), scratch);
    kept.push(trace.last)?;
    let mut left = trace.units.len();
    while left > 0 {
        left -= 1;
        let used = knows(scratch, trace.units[left].complement());
        if used {
            let h = trace.hints[left];
            mark_all(all.clause(h), scratch);
            kept.push(h)?;
        }
    }
    kept.reverse();
    Ok(kept)
}

// Whether the literal is known.
pub fn knows(scratch: &Scratch, l: Lit) -> bool
    ensures { result ≡ knows_of scratch.now l }
{
    l.var() < scratch.vars && scratch.knows(l)
}

// The literals of the clause that are known.
fn known_ones(alloc: Global, clause: &[Lit], scratch: &Scratch) -> Result<Vec<Lit>, Want>
    ensures part { IfOk result (λ v. (l : ℕ) → has v.items l ≡ (has clause.now l && knows_of scratch.now l)) }
{
    let mut kept = Vec::new(alloc);
    for l in clause {
        if knows(scratch, *l) {
            kept.push(*l)?;
        }
    }
    Ok(kept)
}

// The literals, each once.
fn each_once(alloc: Global, literals: &[Lit], scratch: &mut Scratch) -> Result<Vec<Lit>, Want>
    requires { IsBelow scratch.old.vars literals.now }
    ensures same { IfOk result (λ v. (l : ℕ) → has v.items l ≡ has literals.now l) }
    ensures distinct { IfOk result (λ v. IsDistinct v.items) }
    ensures room { scratch.new.vars ≡ scratch.old.vars }
{
    let mut kept = Vec::new(alloc);
    scratch.begin();
    for l in literals {
        if !scratch.knows(*l) {
            scratch.mark(*l);
            kept.push(*l)?;
        }
    }
    Ok(kept)
}
