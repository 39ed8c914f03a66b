//! Chains of derived clauses.

ghost use Rattle.std.specs.Prelude.{◌≡◌, ℕ, ◌↔◌, Bool, List, IsTrue, MatchOption};
ghost use Rattle.pe_cnf.specs.Clause.{AllBelow, Satisfies};
ghost use Rattle.pe_refute.specs.Chain.{all_clauses, EndsEmpty, IsGoodChain};
ghost use Rattle.pe_refute.specs.Faults.{IsChainFault};
ghost use Rattle.pe_refute.specs.declared.evidence.Derived.{Derived as Item};

use crate::evidence::Derived;
use crate::follow::follows;
use crate::scratch::Scratch;
use pe_cnf::Clauses;

/// The first clause of the chain that does not follow from those before it, or the chain's length where the last is not
/// empty.
pub fn chain_fault(given: &Clauses, chain: &[Derived], scratch: &mut Scratch) -> Option<u64>
    requires { AllBelow scratch.old.vars (all_clauses given.now.clauses chain.now) }
    ensures fault { MatchOption result (IsGoodChain given.now.clauses chain.now) (IsChainFault given.now.clauses chain.now) }
    ensures room { scratch.new.vars ≡ scratch.old.vars }
{
    for (i, d) in chain.iter().enumerate() {
        if !follows(
            given,
            &chain[..i],
            d.clause.as_slice(),
            d.hints.as_slice(),
            scratch,
        ) {
            return Some(i as u64);
        }
    }
    if !ends_empty(chain) {
        return Some(chain.len() as u64);
    }
    None
}

// Whether there is a last clause, and it is empty.
fn ends_empty(chain: &[Derived]) -> bool
    ensures { IsTrue result ↔ EndsEmpty chain.now }
{
    if chain.len() == 0 {
        return false;
    }
    chain[chain.len() - 1].clause.is_empty()
}

/// No assignment makes each given clause of a good chain true.
pub fn chain_law()
    ensures { (given : List (List ℕ)) (chain : List Item) → IsGoodChain given chain → (w : ℕ → Bool) → Satisfies w given → ⊥ }
{}
