//! The decision of a question.

ghost use Rattle.std.specs.Prelude.{◌≡◌, ℕ, ◌+◌, ◌<◌, ◌≤◌, ◌*◌, ◌^◌, List, length, IfOk, IfSome};
ghost use Rattle.pe_cnf.specs.Clause.{AllBelow};
ghost use Rattle.pe_cnf.specs.Gates.{IsGated};
ghost use Rattle.pe_refute.specs.Evidence.{IsGood};
ghost use Rattle.pe_solver.specs.Walk.{BeginsWithAll};
ghost use Rattle.pe_solver.specs.Derivation.{IsKept, IsSpent, IsStep, NoneEmpty, IsGrown};
ghost use Rattle.pe_solver.specs.Prefix.{AreLeaves, AreNamed, IsPrefix};
ghost use Rattle.pe_solver.specs.Sample.{IsSample, IsFirstSample, AreBreaking};
ghost use Rattle.pe_solver.specs.Answer.{IsMade, IfRefuted, IfSample, IfSpent, HasForm, IsAnswer, IsDecided, IsSearched};

use crate::analysis::Lesson;
use crate::decision::Decision;
use crate::lean::refine;
use crate::lessons::{Kept, derived, keep};
use crate::prefixes::{Closed, close, denial, known_bits};
use crate::sample::{bits_of, sample};
use crate::search::{Found, MOST_VARS, Search};
use crate::store::Store;
use pe_base::Want;
use pe_cnf::Clauses;
use pe_graph::Lit;
use pe_refute::{Derived, Evidence, Scratch, table_fault};
use std::alloc::Global;

// Up to so many leaves a question is decided by its table.
const MOST_TABLE: u32 = 12;

/// Decides whether the sides of the goal are equal wherever its context is 1, from the clauses of its cone. `leaves` is the
/// leaf count of the goal, and the cone has no more leaves; `budget` is the number of clauses that may be derived.
///
/// With at most 12 leaves, the answer is that of the table: good evidence, or the first sample in counting order. With
/// more it is a good chain of 1 to `budget` clauses, a sample, or `budget` clauses that were kept. The budget isn't spent
/// where it has room for all assignments of the leaves.
pub fn decide(alloc: Global, clauses: &Clauses, leaves: u32, budget: u64) -> Result<Decision, Want>
    requires made { IsMade clauses.now }
    requires few { length clauses.now.leaves ≤ leaves }
    ensures good { IfOk result (λ d. IfRefuted d (IsGood clauses.now)) }
    ensures form { IfOk result (λ d. IfRefuted d (HasForm leaves budget)) }
    ensures sample { IfOk result (λ d. IfSample d (IsSample clauses.now)) }
    ensures first { IfOk result (λ d. leaves ≤ 12 → IfSample d (IsFirstSample clauses.now)) }
    ensures spent { IfOk result (λ d. IfSpent d (IsSpent clauses.now.clauses budget)) }
    ensures many { IfOk result (λ d. IfSpent d (λ _. (12 < leaves) × (budget < 2 ^ leaves))) }
{
    clauses.clauses_law();
    if leaves <= MOST_TABLE {
        let decision = by_table(alloc, clauses)?;
        return Ok(decision);
    }
    let decision = by_search(alloc, clauses, leaves, budget)?;
    Ok(decision)
}

// Decides by the table of all assignments of the leaves.
fn by_table(alloc: Global, clauses: &Clauses) -> Result<Decision, Want>
    requires made { IsMade clauses.now }
    requires few { length clauses.now.leaves ≤ 12 }
    ensures good { IfOk result (λ d. IfRefuted d (IsGood clauses.now)) }
    ensures form { IfOk result (λ d. (leaves budget : ℕ) → leaves ≤ 12 → IfRefuted d (HasForm leaves budget)) }
    ensures sample { IfOk result (λ d. IfSample d (IsSample clauses.now)) }
    ensures first { IfOk result (λ d. IfSample d (IsFirstSample clauses.now)) }
    ensures decided { IfOk result IsDecided }
{
    let mut scratch = Scratch::new(alloc, clauses.vars())?;
    match table_fault(clauses, &mut scratch) {
        None => Ok(Decision::Refuted(Evidence::Table)),
        Some(step) => {
            let bits = bits_of(alloc, step, clauses.leaves().len())?;
            let values = sample(alloc, clauses, &bits)?;
            Ok(Decision::Sample(values))
        }
    }
}

// Decides by search, and by enumeration of the leaves where the search has used up its share.
fn by_search(alloc: Global, clauses: &Clauses, leaves: u32, budget: u64) -> Result<Decision, Want>
    requires made { IsMade clauses.now }
    requires gated { IsGated clauses.now }
    requires few { length clauses.now.leaves ≤ leaves }
    ensures answer { IfOk result (IsAnswer clauses.now budget) }
    ensures decided { IfOk result (λ d. 2 ^ leaves ≤ budget → IsDecided d) }
{
    let own = leaf_literals(alloc, clauses)?;
    let share = share(leaves, budget);
    match search(alloc, clauses, &own, share)? {
        Searched::Ended(decision) => Ok(decision),
        Searched::Open(all, chain, scratch) => {
            if chain.len() as u64 >= budget {
                return Ok(Decision::Spent(chain));
            }
            let decision = finish(alloc, clauses, all, chain, scratch, &own, budget)?;
            Ok(decision)
        }
    }
}

// The literals of the cone's leaves.
fn leaf_literals(alloc: Global, clauses: &Clauses) -> Result<Vec<Lit>, Want>
    requires made { IsMade clauses.now }
    requires gated { IsGated clauses.now }
    ensures named { IfOk result (λ own. AreNamed clauses.now.leaves own.items) }
    ensures leaves { IfOk result (λ own. (vars : ℕ) → clauses.now.vars ≤ vars → AreLeaves vars own.items) }
{
    clauses.clauses_law();
    let mut own = Vec::new(alloc);
    for leaf in clauses.leaves() {
        own.push(Lit::of(leaf.1, false))?;
    }
    Ok(own)
}

// How many clauses the search may keep, so that enough are left for the leaves.
fn share(leaves: u32, budget: u64) -> u64
    ensures within { result ≤ budget }
    ensures rest { 2 ^ leaves ≤ budget → result + 2 ^ leaves ≤ budget }
{
    if leaves < 64 && 1u64 << leaves <= budget {
        budget - (1u64 << leaves)
    } else {
        budget
    }
}

/// What the search itself comes to, before the leaves are gone through.
#[derive(Drop)]
pub enum Searched {
    Ended(Decision),
    Open(Store, Vec<Derived>, Scratch),
}

// Searches with so many clauses to keep.
fn search(alloc: Global, given: &Clauses, own: &[Lit], share: u64) -> Result<Searched, Want>
    requires made { IsMade given.now }
    requires gated { IsGated given.now }
    requires named { AreNamed given.now.leaves own.now }
    requires leaves { (vars : ℕ) → given.now.vars ≤ vars → AreLeaves vars own.now }
    ensures { IfOk result (IsSearched given.now share) }
{
    let mut all = Store::of(alloc, given)?;
    let mut chain: Vec<Derived> = Vec::new(alloc);
    let mut scratch = Scratch::new(alloc, given.vars())?;
    if given.vars() > MOST_VARS {
        return Ok(Searched::Open(all, chain, scratch));
    }
    let mut search = begin(alloc, given)?;
    for _ in 0..u64::MAX {
        match search.next()? {
            Found::Values => {
                if let Some(bits) = confirmed(alloc, given, &all, own, &search, &mut scratch)? {
                    let values = sample(alloc, given, &bits)?;
                    return Ok(Searched::Ended(Decision::Sample(values)));
                }
                return Ok(Searched::Open(all, chain, scratch));
            }
            Found::Lesson(lesson) => {
                if chain.len() as u64 >= share {
                    return Ok(Searched::Open(all, chain, scratch));
                }
                match keep_lesson(alloc, &mut all, &mut chain, &lesson, &mut scratch)? {
                    Kept::Empty => {
                        return Ok(Searched::Ended(Decision::Refuted(Evidence::Chain(chain))));
                    }
                    Kept::New => learn(&mut search, &all)?,
                    Kept::Old(id) => search.learn_again(id)?,
                    Kept::Wrong => return Ok(Searched::Open(all, chain, scratch)),
                }
            }
        }
    }
    Ok(Searched::Open(all, chain, scratch))
}

// A search over the clauses.
fn begin(alloc: Global, given: &Clauses) -> Result<Search, Want> {
    let mut search = Search::new(alloc, given.vars().min(MOST_VARS) as u32)?;
    for id in 0..given.count() {
        search.add(given.clause(id))?;
    }
    Ok(search)
}

// The search takes up the last clause.
fn learn(search: &mut Search, all: &Store) -> Result<(), Want> {
    let count = all.count();
    if count > 0 {
        search.learn(all.clause(count - 1))?;
    }
    Ok(())
}

// Keeps what the search would learn.
fn keep_lesson(
    alloc: Global,
    all: &mut Store,
    chain: &mut Vec<Derived>,
    lesson: &Lesson,
    scratch: &mut Scratch,
) -> Result<Kept, Want>
    requires { AllBelow scratch.old.vars all.old }
    ensures kept { IfOk result (λ _. (given : List (List ℕ)) → IsKept given all.old chain.old.items → IsKept given all.new chain.new.items) }
    ensures step { IfOk result (IsStep all.old chain.old.items chain.new.items) }
    ensures below { IfOk result (λ _. AllBelow scratch.new.vars all.new) }
    ensures room { scratch.new.vars ≡ scratch.old.vars }
{
    let mut clause = Vec::new(alloc);
    for code in &lesson.clause {
        clause.push(Lit::of(*code as u64 / 2, *code % 2 == 1))?;
    }
    let mut hints = Vec::new(alloc);
    for id in &lesson.hints {
        hints.push(*id as u64)?;
    }
    keep(alloc, all, chain, &clause, &hints, scratch)
}

// The values that the search gave the leaves, where a walk from them along all given clauses meets no conflict.
fn confirmed(
    alloc: Global,
    given: &Clauses,
    all: &Store,
    own: &[Lit],
    search: &Search,
    scratch: &mut Scratch,
) -> Result<Option<Vec<bool>>, Want>
    requires below { AllBelow scratch.old.vars all.now }
    requires leaves { AreLeaves scratch.old.vars own.now }
    requires named { AreNamed given.now.leaves own.now }
    requires gated { IsGated given.now }
    requires given { IsGrown given.now.clauses all.now }
    ensures breaking { IfOk result (λ r. IfSome r (λ bits. AreBreaking given.now bits.items)) }
    ensures room { scratch.new.vars ≡ scratch.old.vars }
{
    let prefix = chosen(alloc, own, search)?;
    let clause = denial(alloc, &prefix)?;
    let ids = numbers_below(alloc, given.count())?;
    match refine(alloc, all, &clause, &ids, scratch)? {
        Some(_) => Ok(None),
        None => {
            let bits = known_bits(alloc, own, scratch)?;
            Ok(Some(bits))
        }
    }
}

// A literal of each leaf: the one that the search made true.
fn chosen(alloc: Global, own: &[Lit], search: &Search) -> Result<Vec<Lit>, Want>
    ensures prefix { IfOk result (λ p. IsPrefix own.now p.items) }
    ensures whole { IfOk result (λ p. length p.items ≡ length own.now) }
{
    let mut prefix = Vec::new(alloc);
    for l in own {
        if search.is_one(l.var()) {
            prefix.push(*l)?;
        } else {
            prefix.push(l.complement())?;
        }
    }
    Ok(prefix)
}

// The numbers below the count, in order.
fn numbers_below(alloc: Global, count: u64) -> Result<Vec<u64>, Want>
    ensures { IfOk result (λ ids. (n : ℕ) → n ≤ count → BeginsWithAll n ids.items) }
{
    let mut ids = Vec::new(alloc);
    for id in 0..count {
        ids.push(id)?;
    }
    Ok(ids)
}

// Ends the search by the values of the leaves in counting order.
fn finish(
    alloc: Global,
    given: &Clauses,
    mut all: Store,
    mut chain: Vec<Derived>,
    mut scratch: Scratch,
    own: &[Lit],
    budget: u64,
) -> Result<Decision, Want>
    requires made { IsMade given.now }
    requires gated { IsGated given.now }
    requires kept { IsKept given.now.clauses all chain.items }
    requires none_empty { NoneEmpty chain.items }
    requires below { AllBelow scratch.vars all }
    requires leaves { AreLeaves scratch.vars own.now }
    requires named { AreNamed given.now.leaves own.now }
    requires within { length chain.items < budget }
    ensures answer { IfOk result (IsAnswer given.now budget) }
    ensures decided { IfOk result (λ d. length chain.items + 2 ^ length own.now ≤ budget → IsDecided d) }
{
    let ids = numbers_below(alloc, all.count())?;
    match close(
        alloc,
        given,
        &mut all,
        &mut chain,
        &mut scratch,
        own,
        &[],
        &ids,
        budget,
    )? {
        Closed::By(f) => {
            if chain.len() as u64 >= budget {
                return Ok(Decision::Spent(chain));
            }
            let d = derived(alloc, &f)?;
            chain.push(d)?;
            Ok(Decision::Refuted(Evidence::Chain(chain)))
        }
        Closed::Done => Ok(Decision::Refuted(Evidence::Chain(chain))),
        Closed::Spent => Ok(Decision::Spent(chain)),
        Closed::Sample(bits) => {
            let values = sample(alloc, given, &bits)?;
            Ok(Decision::Sample(values))
        }
    }
}
