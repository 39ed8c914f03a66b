//! Clauses that lie in one list.

ghost use Rattle.std.specs.Prelude.{◌≡◌, ℕ, ◌+◌, ◌-◌, ◌<◌, ◌≤◌, List, [], ◌∷◌, ◌++◌, length, OnOk, OnErr, slice_index, slice_range};
ghost use Rattle.std.specs.List.{concat};
ghost use Rattle.pe_cnf.specs.Clause.{clause_at};
ghost use Rattle.pe_cnf.specs.Parts.{parts, start_from, Rise};

use pe_base::Want;
use pe_graph::Lit;
use std::alloc::Global;
use std::marker::Model;

/// Clauses by their numbers. All literals lie in one list, one clause behind the other. Contracts see the list of the
/// clauses.
#[derive(Drop)]
pub struct ClauseList {
    flat: Vec<Lit>,
    ends: Vec<usize>,
}

impl Model for ClauseList {
    ghost Value = { List (List ℕ) };

    ghost view = { λ s. parts s.flat.items s.ends.items };

    ghost invariant = { λ s. Rise 0 s.ends.items (length s.flat.items) };
}

impl ClauseList {
    /// No clauses.
    pub fn new(alloc: Global) -> Self
        ensures { result ≡ [] }
    {
        ClauseList {
            flat: Vec::new(alloc),
            ends: Vec::new(alloc),
        }
    }

    /// How many clauses there are.
    pub fn count(&self) -> u64
        ensures { result ≡ length self.now }
    {
        self.ends.len() as u64
    }

    /// The clause of a number, lent as it is stored.
    pub fn clause(&self, id: u64) -> &[Lit]
        requires { id < length self.now }
        ensures { result.now ≡ clause_at self.now id }
    {
        let start = start_of(&self.ends, id as usize);
        let end = end_of(&self.ends, id as usize);
        part(&self.flat, start, end)
    }

    /// All literals, one clause behind the other.
    pub fn flat(&self) -> &[Lit]
        ensures { result.now ≡ concat self.now }
    {
        &self.flat
    }

    /// One clause more, with the next number.
    pub fn push(&mut self, clause: &[Lit]) -> Result<(), Want>
        ensures ok { OnOk result (self.new ≡ self.old ++ clause.now ∷ []) }
        ensures err { OnErr result (self.new ≡ self.old) }
    {
        let old = self.flat.len();
        match self.flat.extend_from_slice(clause) {
            Err(_) => Err(Want),
            Ok(()) => {
                let end = self.flat.len();
                match self.ends.push(end) {
                    Ok(()) => Ok(()),
                    Err(_) => {
                        self.flat.truncate(old);
                        Err(Want)
                    }
                }
            }
        }
    }
}

// Where the part begins.
fn start_of(ends: &[usize], id: usize) -> usize
    requires { id < length ends.now }
    ensures { result ≡ start_from 0 ends.now id }
{
    if id == 0 { 0 } else { ends[id - 1] }
}

// Where the part ends.
fn end_of(ends: &[usize], id: usize) -> usize
    requires { id < length ends.now }
    ensures { result ≡ slice_index ends.now id }
{
    ends[id]
}

// The part from `start` to `end`.
fn part(flat: &[Lit], start: usize, end: usize) -> &[Lit]
    requires rise { start ≤ end }
    requires within { end ≤ length flat.now }
    ensures { result.now ≡ slice_range flat.now start end }
{
    &flat[start..end]
}
