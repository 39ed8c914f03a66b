//! Whether a clause follows along its hints.

ghost use Rattle.std.specs.Prelude.{◌≡◌, ℕ, ◌+◌, ◌<◌, ◌≤◌, ◌↔◌, length, IsTrue, MatchOption};
ghost use Rattle.pe_cnf.specs.Clause.{clause_at, IsBelow, AllBelow};
ghost use Rattle.pe_refute.specs.Follow.{Follows, Gives, denied};
ghost use Rattle.pe_refute.specs.Chain.{all_clauses};
ghost use Rattle.pe_refute.specs.Known.{knows_of};

use crate::evidence::Derived;
use crate::scratch::Scratch;
use pe_cnf::Clauses;
use pe_graph::Lit;

/// What a clause gives under what is known.
#[derive(Clone, Copy, Debug, PartialEq, Eq)]
pub enum Effect {
    /// Each literal is known to be false.
    Conflict,
    /// This literal has no value, and each other one is known to be false.
    Unit(Lit),
    /// Neither of the two.
    Neither,
}

/// Whether the clause follows along the hints from the given clauses and the earlier ones: with its literals false, each
/// hint's clause gives a new unit, and the last a conflict. The scratch has room for the variables of all of them.
pub fn follows(
    given: &Clauses,
    earlier: &[Derived],
    clause: &[Lit],
    hints: &[u64],
    scratch: &mut Scratch,
) -> bool
    requires clauses { AllBelow scratch.old.vars (all_clauses given.now.clauses earlier.now) }
    requires clause { IsBelow scratch.old.vars clause.now }
    ensures follows { IsTrue result ↔ Follows (all_clauses given.now.clauses earlier.now) clause.now hints.now }
    ensures room { scratch.new.vars ≡ scratch.old.vars }
{
    deny(clause, scratch);
    for (i, h) in hints.iter().enumerate() {
        match find_clause(given, earlier, *h) {
            None => return false,
            Some(c) => match look(scratch, c) {
                Effect::Neither => return false,
                Effect::Conflict => return i + 1 == hints.len(),
                Effect::Unit(l) => scratch.mark(l),
            },
        }
    }
    false
}

// Marks what the clause's negation makes true.
fn deny(clause: &[Lit], scratch: &mut Scratch)
    requires { IsBelow scratch.old.vars clause.now }
    ensures known { (m : ℕ) → knows_of scratch.new m ≡ denied clause.now m }
    ensures room { scratch.new.vars ≡ scratch.old.vars }
{
    scratch.begin();
    for l in clause {
        scratch.mark(l.complement());
    }
}

/// The clause of the number: a given one, or a derived one behind them. None if there is none.
pub fn find_clause<'a>(given: &'a Clauses, earlier: &'a [Derived], id: u64) -> Option<&'a [Lit]>
    ensures { MatchOption result (length (all_clauses given.now.clauses earlier.now) ≤ id) (λ c. (id < length (all_clauses given.now.clauses earlier.now)) × (c.now ≡ clause_at (all_clauses given.now.clauses earlier.now) id)) }
{
    let count = given.count();
    if id < count {
        return Some(given.clause(id));
    }
    match earlier.get((id - count) as usize) {
        None => None,
        Some(d) => Some(d.clause.as_slice()),
    }
}

/// What the clause gives under what the scratch knows: a conflict where each of its literals is known to be false, a
/// unit where that is so of all but one that has no value.
pub fn look(scratch: &Scratch, clause: &[Lit]) -> Effect
    requires { IsBelow scratch.now.vars clause.now }
    ensures { Gives (knows_of scratch.now) clause.now result }
{
    let mut unit = None;
    for l in clause {
        if !scratch.knows(l.complement()) {
            if scratch.knows(*l) {
                return Effect::Neither;
            }
            match unit {
                None => unit = Some(*l),
                Some(u) => {
                    if u != *l {
                        return Effect::Neither;
                    }
                }
            }
        }
    }
    match unit {
        None => Effect::Conflict,
        Some(l) => Effect::Unit(l),
    }
}
