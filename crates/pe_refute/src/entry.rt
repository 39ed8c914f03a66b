//! Entries: equalities with their evidence.

ghost use Rattle.std.specs.Prelude.{◌≡◌, All};
ghost use Rattle.std.specs.Arc.{arc_value};
ghost use Rattle.pe_cnf.specs.Meaning.{Holds};

use crate::evidence::Evidence;
use pe_cnf::Equality;
use pe_graph::Job;
use sqlite_items::Items;
use std::alloc::Global;
use std::sync::Arc;

/// An equality, the places of those that it cites, and its evidence.
#[derive(Drop)]
pub struct Entry {
    pub eq: Equality,
    pub cites: Items<u32>,
    pub evidence: Evidence,
}

/// An entry of a job that was checked, and the equalities that it cites, in citing order. Where these hold, its own does.
#[derive(Drop)]
pub struct CheckedEntry {
    pub job: Arc<Job, Global>,
    pub entry: Entry,
    pub cited: Items<Equality>,
    pub ghost proved: { All (Holds (arc_value job).graph) cited → Holds (arc_value job).graph entry.eq },
}

/// Why an entry is not accepted.
#[derive(Drop)]
pub enum EntryFault {
    /// Memory is refused. The entry comes back.
    Memory(Entry),
    /// Its evidence is wrong, and first at this step: the first clause that does not follow, or the chain's length where
    /// the last is not empty; the first assignment that breaks a table, or 4,096 for a table over more than 12 leaves.
    Bad { step: u64 },
    /// It cites a place that has no equality, or one of a context that is neither its own nor true.
    BadCite { place: u32 },
}

impl CheckedEntry {
    /// The entry.
    pub fn entry(&self) -> &Entry
        ensures { result.now ≡ self.now.entry }
    {
        &self.entry
    }

    /// The entry itself.
    pub fn into_entry(self) -> Entry
        ensures { result ≡ self.entry }
    {
        self.entry
    }
}
