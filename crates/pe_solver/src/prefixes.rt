//! The end of the search: the values of the leaves, one after another in counting order.
//!
//! A prefix gives the first leaves their values. It is closed by a clause that denies it: one that the walk from it
//! finds, or one that follows from those of its two sides. The clause of its 0 side is kept, and with it the hints of the
//! 1 side lead to a conflict from the prefix alone. So of the 2 ^ m prefixes of m leaves fewer than 2 ^ m clauses are
//! kept.

ghost use Rattle.std.specs.Prelude.{◌≡◌, ℕ, ◌+◌, ◌-◌, ◌<◌, List, [], ◌∷◌, ◌++◌, length, IfOk};
ghost use Rattle.pe_cnf.specs.Clause.{IsBelow, AllBelow};
ghost use Rattle.pe_cnf.specs.Gates.{IsGated};
ghost use Rattle.pe_refute.specs.Follow.{Follows};
ghost use Rattle.pe_refute.specs.Known.{knows_of};
ghost use Rattle.pe_solver.specs.Walk.{BeginsWithAll};
ghost use Rattle.pe_solver.specs.Derivation.{IsKept, IsGrown};
ghost use Rattle.pe_solver.specs.Sample.{AreKnownBits};
ghost use Rattle.pe_solver.specs.Prefix.{AreLeaves, AreNamed, IsPrefix, denials, IsClosed, IsSide};

use crate::finding::Finding;
use crate::lean::{knows, refine};
use crate::lessons::{Kept, keep};
use crate::store::Store;
use pe_base::Want;
use pe_cnf::Clauses;
use pe_graph::Lit;
use pe_refute::{Derived, Scratch};
use std::alloc::Global;

/// How a prefix is closed.
#[derive(Drop)]
pub enum Closed {
    /// By a clause that denies it.
    By(Finding),
    /// Not at all: these values of the leaves are a sample.
    Sample(Vec<bool>),
    /// The budget is spent.
    Spent,
    /// The empty clause is kept.
    Done,
}

/// What became of the clause of a 0 side.
#[derive(Clone, Copy)]
pub enum Side {
    /// It stands under this number.
    Id(u64),
    /// The budget has no room for it.
    Spent,
    /// It is empty.
    Done,
}

/// Closes the prefix, or finds a sample.
pub fn close(
    alloc: Global,
    given: &Clauses,
    all: &mut Store,
    chain: &mut Vec<Derived>,
    scratch: &mut Scratch,
    leaves: &[Lit],
    prefix: &[Lit],
    ids: &[u64],
    budget: u64,
) -> Result<Closed, Want>
    requires below { AllBelow scratch.old.vars all.old }
    requires leaves { AreLeaves scratch.old.vars leaves.now }
    requires named { AreNamed given.now.leaves leaves.now }
    requires prefix { IsPrefix leaves.now prefix.now }
    requires gated { IsGated given.now }
    requires given { IsGrown given.now.clauses all.old }
    requires ids { BeginsWithAll (given.now.gates + 3) ids.now }
    ensures kept { IfOk result (λ _. (g : List (List ℕ)) → IsKept g all.old chain.old.items → IsKept g all.new chain.new.items) }
    ensures below { IfOk result (λ _. AllBelow scratch.new.vars all.new) }
    ensures grown { IfOk result (λ _. IsGrown all.old all.new) }
    ensures closed { IfOk result (IsClosed given.now all.new chain.old.items chain.new.items (length leaves.now - length prefix.now) prefix.now budget) }
    ensures room { scratch.new.vars ≡ scratch.old.vars }
{
    let clause = denial(alloc, prefix)?;
    if let Some(d) = refine(alloc, all, &clause, ids, scratch)? {
        return Ok(Closed::By(d));
    }
    if prefix.len() >= leaves.len() {
        let bits = known_bits(alloc, leaves, scratch)?;
        return Ok(Closed::Sample(bits));
    }
    let leaf = leaves[prefix.len()];
    let zero = longer(alloc, prefix, leaf.complement())?;
    match close(
        alloc, given, all, chain, scratch, leaves, &zero, ids, budget,
    )? {
        Closed::By(d) => match keep_side(alloc, all, chain, &d, scratch, budget)? {
            Side::Spent => Ok(Closed::Spent),
            Side::Done => Ok(Closed::Done),
            Side::Id(id) => {
                if let Some(d) = refine(alloc, all, &clause, &[id], scratch)? {
                    return Ok(Closed::By(d));
                }
                let one = longer(alloc, prefix, leaf)?;
                match close(alloc, given, all, chain, scratch, leaves, &one, ids, budget)? {
                    Closed::By(e) => {
                        let hints = joined(alloc, id, &e.hints)?;
                        match refine(alloc, all, &clause, &hints, scratch)? {
                            Some(f) => Ok(Closed::By(f)),
                            None => unreachable!(),
                        }
                    }
                    Closed::Sample(bits) => Ok(Closed::Sample(bits)),
                    Closed::Spent => Ok(Closed::Spent),
                    Closed::Done => Ok(Closed::Done),
                }
            }
        },
        Closed::Sample(bits) => Ok(Closed::Sample(bits)),
        Closed::Spent => Ok(Closed::Spent),
        Closed::Done => Ok(Closed::Done),
    }
}

// Keeps the clause of a 0 side, if there is room for it in the budget.
fn keep_side(
    alloc: Global,
    all: &mut Store,
    chain: &mut Vec<Derived>,
    d: &Finding,
    scratch: &mut Scratch,
    budget: u64,
) -> Result<Side, Want>
    requires below { AllBelow scratch.old.vars all.old }
    requires clause { IsBelow scratch.old.vars d.now.clause.items }
    requires follows { Follows all.old d.now.clause.items d.now.hints.items }
    ensures kept { IfOk result (λ _. (given : List (List ℕ)) → IsKept given all.old chain.old.items → IsKept given all.new chain.new.items) }
    ensures below { IfOk result (λ _. AllBelow scratch.new.vars all.new) }
    ensures grown { IfOk result (λ _. IsGrown all.old all.new) }
    ensures side { IfOk result (IsSide all.new chain.old.items chain.new.items d.now.clause.items budget) }
    ensures room { scratch.new.vars ≡ scratch.old.vars }
{
    if chain.len() as u64 >= budget {
        return Ok(Side::Spent);
    }
    let count = all.count();
    match keep(alloc, all, chain, &d.clause, &d.hints, scratch)? {
        Kept::New => Ok(Side::Id(count)),
        Kept::Old(id) => Ok(Side::Id(id)),
        Kept::Empty => Ok(Side::Done),
        Kept::Wrong => unreachable!(),
    }
}

/// The clause that denies the prefix.
pub fn denial(alloc: Global, prefix: &[Lit]) -> Result<Vec<Lit>, Want>
    ensures { IfOk result (λ c. c.items ≡ denials prefix.now) }
{
    let mut clause = Vec::new(alloc);
    for l in prefix {
        clause.push(l.complement())?;
    }
    Ok(clause)
}

/// Which of the leaves are known to be 1.
pub fn known_bits(alloc: Global, leaves: &[Lit], scratch: &Scratch) -> Result<Vec<bool>, Want>
    ensures { IfOk result (λ bits. AreKnownBits (knows_of scratch.now) leaves.now bits.items) }
{
    let mut bits = Vec::new(alloc);
    for l in leaves {
        bits.push(knows(scratch, *l))?;
    }
    Ok(bits)
}

// The prefix with one more literal.
fn longer(alloc: Global, prefix: &[Lit], l: Lit) -> Result<Vec<Lit>, Want>
    ensures { IfOk result (λ p. p.items ≡ prefix.now ++ l ∷ []) }
{
    let mut all = prefix.to_vec(alloc)?;
    all.push(l)?;
    Ok(all)
}

// The number, and then the hints.
fn joined(alloc: Global, id: u64, hints: &[u64]) -> Result<Vec<u64>, Want>
    ensures { IfOk result (λ h. h.items ≡ id ∷ hints.now) }
{
    let mut all = Vec::new(alloc);
    all.push(id)?;
    all.extend_from_slice(hints)?;
    Ok(all)
}
