//! What is kept of what is learnt.

ghost use Rattle.std.specs.Prelude.{◌≡◌, ℕ, ◌<◌, ◌↔◌, List, IsTrue, IfOk};
ghost use Rattle.pe_cnf.specs.Clause.{IsBelow, AllBelow};
ghost use Rattle.pe_refute.specs.Follow.{Follows};
ghost use Rattle.pe_refute.specs.Chain.{clause_of, hints_of};
ghost use Rattle.pe_solver.specs.Derivation.{IsKept, IsStep, IsNumbered};

use crate::finding::Finding;
use crate::lean::refine;
use crate::same::find_same;
use crate::store::Store;
use pe_base::Want;
use pe_graph::Lit;
use pe_refute::{Derived, Scratch};
use smallvec::SmallVec;
use std::alloc::Global;

/// What became of a lesson.
#[derive(Clone, Copy)]
pub enum Kept {
    /// It is kept.
    New,
    /// It is kept, and is empty.
    Empty,
    /// A clause of the same literals is there already, under this number.
    Old(u64),
    /// It does not follow along its hints.
    Wrong,
}

/// Keeps the clause without what is idle, if it follows along the hints and is not there already.
pub fn keep(
    alloc: Global,
    all: &mut Store,
    chain: &mut Vec<Derived>,
    clause: &[Lit],
    hints: &[u64],
    scratch: &mut Scratch,
) -> Result<Kept, Want>
    requires { AllBelow scratch.old.vars all.old }
    ensures kept { IfOk result (λ _. (given : List (List ℕ)) → IsKept given all.old chain.old.items → IsKept given all.new chain.new.items) }
    ensures step { IfOk result (IsStep all.old chain.old.items chain.new.items) }
    ensures below { IfOk result (λ _. AllBelow scratch.new.vars all.new) }
    ensures numbered { IfOk result (IsNumbered all.old all.new clause.now) }
    ensures right { IfOk result (λ r. IsBelow scratch.old.vars clause.now → Follows all.old clause.now hints.now → r ≡ Kept.Wrong → ⊥) }
    ensures room { scratch.new.vars ≡ scratch.old.vars }
{
    if !are_below(clause, scratch.vars) {
        return Ok(Kept::Wrong);
    }
    match refine(alloc, all, clause, hints, scratch)? {
        None => Ok(Kept::Wrong),
        Some(f) => match find_same(all, &f.clause, scratch) {
            Some(id) => Ok(Kept::Old(id)),
            None => {
                let empty = f.clause.is_empty();
                let d = derived(alloc, &f)?;
                all.push(&f.clause)?;
                chain.push(d)?;
                if empty {
                    Ok(Kept::Empty)
                } else {
                    Ok(Kept::New)
                }
            }
        },
    }
}

// The same, as it stands in evidence.
pub fn derived(alloc: Global, f: &Finding) -> Result<Derived, Want>
    ensures clause { IfOk result (λ d. clause_of d ≡ f.now.clause.items) }
    ensures hints { IfOk result (λ d. hints_of d ≡ f.now.hints.items) }
{
    let clause = SmallVec::from_slice(alloc, &f.clause)?;
    let hints = SmallVec::from_slice(alloc, &f.hints)?;
    Ok(Derived { clause, hints })
}

// Whether each variable of the clause is below the limit.
fn are_below(clause: &[Lit], limit: u64) -> bool
    ensures { IsTrue result ↔ IsBelow limit clause.now }
{
    for l in clause {
        if l.var() >= limit {
            return false;
        }
    }
    true
}
