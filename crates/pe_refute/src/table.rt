//! Tables over the leaves of a cone.

ghost use Rattle.std.specs.Prelude.{◌≡◌, ℕ, ◌+◌, ◌*◌, ◌<◌, ◌≤◌, ◌^◌, ◌==◌, Bool, true, false, IsTrue, take, not, MatchOption};
ghost use Rattle.pe_graph.specs.Literals.{var_of};
ghost use Rattle.pe_cnf.specs.Clause.{Satisfies, literal_value};
ghost use Rattle.pe_cnf.specs.Gates.{IsGated, gate_count};
ghost use Rattle.pe_cnf.specs.Sound.{IsSound};
ghost use Rattle.pe_refute.specs.Table.{IsTable, Assigns};
ghost use Rattle.pe_refute.specs.Faults.{IsTableFault};
ghost use Rattle.pe_refute.specs.Evaluation.{value_of, IsEvaluated};

use crate::scratch::Scratch;
use pe_cnf::Clauses;
use pe_graph::Lit;

// Over more leaves no table is taken.
const MOST_LEAVES: usize = 12;

// What is wrong with a table of no goal, or of more leaves: more than the number of each assignment.
const NO_TABLE: u64 = 4096;

/// The first assignment of the leaves in which the context is 1 and the sides of the goal differ. It is 4,096 where there
/// is no goal, or more than 12 leaves.
pub fn table_fault(clauses: &Clauses, scratch: &mut Scratch) -> Option<u64>
    requires { clauses.now.vars ≤ scratch.old.vars }
    ensures fault { MatchOption result (IsTable clauses.now) (IsTableFault clauses.now) }
    ensures room { scratch.new.vars ≡ scratch.old.vars }
{
    clauses.clauses_law();
    if clauses.goal().is_none() {
        return Some(NO_TABLE);
    }
    if clauses.leaves().len() > MOST_LEAVES {
        return Some(NO_TABLE);
    }
    let count = 1u64 << clauses.leaves().len();
    for k in 0..count {
        if breaks(clauses, k, scratch) {
            return Some(k);
        }
    }
    None
}

// Whether the context is 1 and the sides differ in the assignment of this number.
fn breaks(clauses: &Clauses, k: u64, scratch: &mut Scratch) -> bool
    requires room { clauses.now.vars ≤ scratch.old.vars }
    requires sound { IsSound clauses.now }
    requires gated { IsGated clauses.now }
    ensures found { IsTrue result → (w : ℕ → Bool) × Assigns clauses.now.leaves k w × Satisfies w (take (clauses.now.gates + 3) clauses.now.clauses) }
    ensures none { IsTrue (not result) → (w : ℕ → Bool) → Assigns clauses.now.leaves k w → Satisfies w (take (clauses.now.gates + 3) clauses.now.clauses) → ⊥ }
    ensures room { scratch.new.vars ≡ scratch.old.vars }
{
    set_leaves(clauses, k, scratch);
    for g in 0..clauses.gates() / 3 {
        set_gate(clauses, g, scratch);
    }
    let gates = clauses.gates();
    value(scratch, clauses.clause(gates)[0])
        && value(scratch, clauses.clause(gates + 1)[0])
            != value(scratch, clauses.clause(gates + 1)[1])
}

// Gives the constant and the leaves their values in the assignment of this number.
fn set_leaves(clauses: &Clauses, k: u64, scratch: &mut Scratch)
    requires room { clauses.now.vars ≤ scratch.old.vars }
    requires sound { IsSound clauses.now }
    requires gated { IsGated clauses.now }
    ensures evaluated { IsEvaluated clauses.now.leaves clauses.now.clauses k 0 (value_of scratch.new) }
    ensures room { scratch.new.vars ≡ scratch.old.vars }
{
    let leaves = clauses.leaves();
    scratch.begin();
    scratch.mark(Lit::truth(true));
    let mut left = leaves.len();
    let mut rest = k;
    while left > 0 {
        left -= 1;
        if rest % 2 == 1 {
            scratch.mark(Lit::of(leaves[left].1, false));
        }
        rest /= 2;
    }
}

// Gives the output of a gate the value that its inputs give.
fn set_gate(clauses: &Clauses, g: u64, scratch: &mut Scratch)
    requires room { clauses.now.vars ≤ scratch.old.vars }
    requires sound { IsSound clauses.now }
    requires gated { IsGated clauses.now }
    requires within { g < gate_count clauses.now }
    requires fits { 3 * g + 3 < 2 ^ 64 }
    ensures evaluated { (k : ℕ) → IsEvaluated clauses.now.leaves clauses.now.clauses k g (value_of scratch.old) → IsEvaluated clauses.now.leaves clauses.now.clauses k (g + 1) (value_of scratch.new) }
    ensures room { scratch.new.vars ≡ scratch.old.vars }
{
    let start = 1 + 3 * g;
    let output = clauses.clause(start + 2)[0];
    let left = value(scratch, clauses.clause(start)[1]);
    let right = value(scratch, clauses.clause(start + 1)[1]);
    if left && right {
        scratch.mark(output);
    }
}

// The value of a literal.
fn value(scratch: &Scratch, l: Lit) -> bool
    requires { var_of l < scratch.now.vars }
    ensures { result ≡ literal_value (value_of scratch.now) l }
{
    if l.negated() {
        !scratch.knows(l.complement())
    } else {
        scratch.knows(l)
    }
}
