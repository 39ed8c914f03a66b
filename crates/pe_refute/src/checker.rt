//! The check of evidence.

ghost use Rattle.std.specs.Prelude.{◌≡◌, ◌≤◌, ◌↔◌, IsTrue, MatchOption};
ghost use Rattle.pe_refute.specs.Evidence.{IsGood, IsWithin, ProvesGoal};
ghost use Rattle.pe_refute.specs.Faults.{IsWrongAt};

use crate::chain::chain_fault;
use crate::evidence::Evidence;
use crate::scratch::Scratch;
use crate::table::table_fault;
use pe_cnf::Clauses;

/// Whether the evidence is good. Where it is, and the clauses are those of a goal's cone with cited equalities that are
/// true, the goal's sides are equal wherever its context is 1. The scratch has room for the variables of the clauses
/// and of the evidence.
pub fn check(clauses: &Clauses, evidence: &Evidence, scratch: &mut Scratch) -> bool
    requires room { clauses.now.vars ≤ scratch.old.vars }
    requires within { IsWithin scratch.old.vars evidence.now }
    ensures good { IsTrue result ↔ IsGood clauses.now evidence.now }
    ensures proves { IsTrue result → ProvesGoal clauses.now }
    ensures room { scratch.new.vars ≡ scratch.old.vars }
{
    first_fault(clauses, evidence, scratch).is_none()
}

/// The first step at which the evidence is wrong: the first clause of a chain that does not follow, or the chain's length
/// where it does not end empty; the first assignment that breaks a table, or 4,096 where no table is taken.
pub fn first_fault(clauses: &Clauses, evidence: &Evidence, scratch: &mut Scratch) -> Option<u64>
    requires room { clauses.now.vars ≤ scratch.old.vars }
    requires within { IsWithin scratch.old.vars evidence.now }
    ensures fault { MatchOption result (IsGood clauses.now evidence.now) (IsWrongAt clauses.now evidence.now) }
    ensures room { scratch.new.vars ≡ scratch.old.vars }
{
    clauses.clauses_law();
    match evidence {
        Evidence::Table => table_fault(clauses, scratch),
        Evidence::Chain(chain) => chain_fault(clauses, chain, scratch),
    }
}
