//! Whether a clause is there already, as a set of literals.

ghost use Rattle.std.specs.Prelude.{◌≡◌, ℕ, ◌<◌, ◌↔◌, length, IsTrue, MatchOption, true};
ghost use Rattle.pe_cnf.specs.Clause.{has, clause_at, IsBelow};
ghost use Rattle.pe_refute.specs.Known.{knows_of};
ghost use Rattle.pe_solver.specs.Lean.{IsPart};
ghost use Rattle.pe_solver.specs.Derivation.{AreSame};

use crate::lean::{knows, mark_all};
use crate::store::{Store, mask_of};
use pe_graph::Lit;
use pe_refute::Scratch;

/// The number of a clause with the same literals. Its mask is the same, so only the clauses whose masks have the same
/// remainder are looked at, from the last to the first.
#[inline(never)]
pub fn find_same(all: &Store, clause: &[Lit], scratch: &mut Scratch) -> Option<u64>
    requires { IsBelow scratch.old.vars clause.now }
    ensures found { MatchOption result ((id : ℕ) → id < length all.now → AreSame (clause_at all.now id) clause.now → ⊥) (λ id. (id < length all.now) × AreSame (clause_at all.now id) clause.now) }
    ensures room { scratch.new.vars ≡ scratch.old.vars }
{
    scratch.begin();
    mark_all(clause, scratch);
    let mask = mask_of(clause);
    let mut above = all.last(mask);
    while above > 0 {
        let id = above - 1;
        if all.mask(id) == mask {
            let other = all.clause(id);
            if all_known(other, scratch) {
                if is_part(clause, other) {
                    return Some(id);
                }
            }
        }
        above = all.before(id);
    }
    None
}

// Whether each literal of the clause is known.
fn all_known(clause: &[Lit], scratch: &Scratch) -> bool
    ensures { IsTrue result ↔ ((l : ℕ) → has clause.now l ≡ true → knows_of scratch.now l ≡ true) }
{
    for l in clause {
        if !knows(scratch, *l) {
            return false;
        }
    }
    true
}

// Whether each literal of the first clause is in the second.
fn is_part(clause: &[Lit], other: &[Lit]) -> bool
    ensures { IsTrue result ↔ IsPart clause.now other.now }
{
    for l in clause {
        if !contains(other, *l) {
            return false;
        }
    }
    true
}

// Whether the clause has the literal.
fn contains(clause: &[Lit], l: Lit) -> bool
    ensures { result ≡ has clause.now l }
{
    for x in clause {
        if *x == l {
            return true;
        }
    }
    false
}
