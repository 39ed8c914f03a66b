//! The masks of clauses by their numbers, linked where they leave the same remainder.
//!
//! What has a given mask is among those of its remainder, so it is found without going through all.

ghost use Rattle.std.specs.Prelude.{◌≡◌, ℕ, ◌-◌, ◌%◌, ◌<◌, [], ◌∷◌, ◌++◌, length, take, slice_index, EachIndex, IfOk, OnOk, OnErr};
ghost use Rattle.pe_solver.specs.Masks.{buckets, rest_at, IsLastMask};

use pe_base::Want;
use std::alloc::Global;
use std::marker::Model;

// Remainders are taken by this number.
const BUCKETS: u64 = 65_521;

/// Masks, those of each remainder linked from the last to the first. Contracts see the list of the masks.
#[derive(Drop)]
pub struct Links {
    masks: Vec<u64>,
    // For each remainder one more than the number of its last mask, or 0.
    last: Vec<u64>,
    // For each mask the same of the one before it that has its remainder.
    before: Vec<u64>,
}

impl Model for Links {
    ghost use Rattle.std.specs.Prelude.{ℕ, List};
    ghost use Rattle.pe_solver.specs.Masks.{AreLinked};

    ghost Value = { List ℕ };

    ghost view = { λ s. s.masks.items };

    ghost invariant = { λ s. AreLinked s.masks.items s.last.items s.before.items };
}

impl Links {
    /// No masks.
    pub fn new(alloc: Global) -> Result<Links, Want>
        ensures { IfOk result (λ links. links ≡ []) }
    {
        let last = zeros(alloc, BUCKETS)?;
        Ok(Links {
            masks: Vec::new(alloc),
            last,
            before: Vec::new(alloc),
        })
    }

    /// The mask of a number.
    pub fn mask(&self, id: u64) -> u64
        requires { id < length self.now }
        ensures { result ≡ slice_index self.now id }
    {
        self.masks[id as usize]
    }

    /// One more than the number of the last mask that has the remainder of the given one, or 0.
    pub fn last(&self, mask: u64) -> u64
        ensures { IsLastMask self.now (length self.now) (mask % buckets) result }
    {
        self.last[rest_of(mask)]
    }

    /// One more than the number of the last mask before this one that has its remainder, or 0.
    pub fn before(&self, id: u64) -> u64
        requires { id < length self.now }
        ensures { IsLastMask self.now id (rest_at self.now id) result }
    {
        self.before[id as usize]
    }

    /// One mask more, with the next number.
    pub fn push(&mut self, mask: u64) -> Result<(), Want>
        ensures ok { OnOk result (self.new ≡ self.old ++ mask ∷ []) }
        ensures err { OnErr result (self.new ≡ self.old) }
    {
        let rest = rest_of(mask);
        match self.before.push(self.last[rest]) {
            Err(_) => Err(Want),
            Ok(()) => match self.masks.push(mask) {
                Ok(()) => {
                    self.last[rest] = self.masks.len() as u64;
                    Ok(())
                }
                Err(_) => {
                    let _before = self.before.pop();
                    Err(Want)
                }
            },
        }
    }

    /// Takes the last mask away.
    pub fn pop(&mut self)
        requires { 0 < length self.old }
        ensures { self.new ≡ take (length self.old - 1) self.old }
    {
        let id = self.masks.len() - 1;
        let rest = rest_of(self.masks[id]);
        self.last[rest] = self.before[id];
        self.masks.truncate(id);
        self.before.truncate(id);
    }
}

// The remainder of a mask.
fn rest_of(mask: u64) -> usize
    ensures within { result < buckets }
    ensures value { result ≡ mask % buckets }
{
    (mask % BUCKETS) as usize
}

// So many zeros.
fn zeros(alloc: Global, count: u64) -> Result<Vec<u64>, Want>
    ensures count { IfOk result (λ v. length v.items ≡ count) }
    ensures zeros { IfOk result (λ v. EachIndex v.items (λ i. slice_index v.items i ≡ 0)) }
{
    let v = vec![in alloc; 0u64; count as usize]?;
    Ok(v)
}
