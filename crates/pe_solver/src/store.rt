//! The clauses by their numbers: those given, and behind them those kept.

ghost use Rattle.std.specs.Prelude.{◌≡◌, ℕ, ◌%◌, ◌<◌, [], ◌∷◌, ◌++◌, length, IfOk, OnOk};
ghost use Rattle.pe_cnf.specs.Clause.{clause_at};
ghost use Rattle.pe_solver.specs.Masks.{buckets, IsMask, IsOfRest, IsLastBelow};

use crate::links::Links;
use pe_base::Want;
use pe_cnf::{ClauseList, Clauses};
use pe_graph::Lit;
use std::alloc::Global;
use std::marker::Model;

/// Clauses with their masks. Contracts see the list of the clauses.
#[derive(Drop)]
pub struct Store {
    list: ClauseList,
    links: Links,
}

impl Model for Store {
    ghost use Rattle.std.specs.Prelude.{ℕ, List};
    ghost use Rattle.pe_solver.specs.Masks.{AreMasks};

    ghost Value = { List (List ℕ) };

    ghost view = { λ s. s.list };

    ghost invariant = { λ s. AreMasks s.list s.links };
}

impl Store {
    /// No clauses.
    fn new(alloc: Global) -> Result<Store, Want>
        ensures { IfOk result (λ all. all ≡ []) }
    {
        let links = Links::new(alloc)?;
        Ok(Store {
            list: ClauseList::new(alloc),
            links,
        })
    }

    /// The given clauses.
    pub fn of(alloc: Global, given: &Clauses) -> Result<Store, Want>
        ensures { IfOk result (λ all. all ≡ given.now.clauses) }
    {
        let mut all = Store::new(alloc)?;
        for id in 0..given.count() {
            all.push(given.clause(id))?;
        }
        Ok(all)
    }

    /// How many clauses there are.
    pub fn count(&self) -> u64
        ensures { result ≡ length self.now }
    {
        self.list.count()
    }

    /// The clause of a number.
    pub fn clause(&self, id: u64) -> &[Lit]
        requires { id < length self.now }
        ensures { result.now ≡ clause_at self.now id }
    {
        self.list.clause(id)
    }

    /// The mask of the clause of a number.
    pub fn mask(&self, id: u64) -> u64
        requires { id < length self.now }
        ensures { IsMask (clause_at self.now id) result }
    {
        self.links.mask(id)
    }

    /// One more than the number of the last clause whose mask has the remainder of the given one, or 0.
    pub fn last(&self, mask: u64) -> u64
        ensures { IsLastBelow self.now (length self.now) (mask % buckets) result }
    {
        self.links.last(mask)
    }

    /// One more than the number of the last clause before this one whose mask has the same remainder, or 0.
    pub fn before(&self, id: u64) -> u64
        requires { id < length self.now }
        ensures { (r : ℕ) → IsOfRest (clause_at self.now id) r → IsLastBelow self.now id r result }
    {
        self.links.before(id)
    }

    /// One clause more, with the next number.
    pub fn push(&mut self, clause: &[Lit]) -> Result<(), Want>
        ensures ok { OnOk result (self.new ≡ self.old ++ clause.now ∷ []) }
    {
        let mask = mask_of(clause);
        match self.links.push(mask) {
            Err(_) => Err(Want),
            Ok(()) => match self.list.push(clause) {
                Ok(()) => Ok(()),
                Err(_) => {
                    self.links.pop();
                    Err(Want)
                }
            },
        }
    }
}

/// The mask of a clause.
pub fn mask_of(clause: &[Lit]) -> u64
    ensures { IsMask clause.now result }
{
    let mut mask: u64 = 0;
    for l in clause {
        mask |= 1u64 << (l.code() % 64);
    }
    mask
}
